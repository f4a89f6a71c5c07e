//! Why a text is no script.

ghost use Rattle.std.specs.Prelude.{◌≡◌};
ghost use Rattle.script_text.specs.declared.bad_script.Refusal.TheVariants.{OutOfMemory};

use std::alloc::{AllocError, AllocFailed};

/// What is wrong with a line. The number is that of the kind in the format of scripts.
#[derive(Clone, Copy, Debug, PartialEq, Eq)]
pub enum BadKind {
    /// Its first piece is no command word, or a command that takes nothing has more on its line.
    UnknownCommand = 1,
    /// It should be an edit, and is none.
    BadEdit = 2,
    /// It is an edit whose expression is none.
    BadRegex = 3,
    /// A backslash of its text begins no escape.
    BadText = 4,
    /// Its text has more than [`TEXT_LIMIT`](crate::TEXT_LIMIT) bytes.
    TextTooLong = 5,
    /// The script ended in a section. The line is the one after the last.
    UnclosedPar = 6,
    /// It ends a section, and none was begun.
    StrayEnd = 7,
    /// It begins a section in a section.
    ParInPar = 8,
    /// It is one command more than a script may have.
    TooManyCommands = 9,
    /// It is one command more than a section may have.
    SectionTooLong = 10,
    /// It asks for statistics in a section or after one.
    StatsAfterPar = 11,
}

/// The first bad line of a script, counted from 1, and what is wrong with it.
#[derive(Clone, Copy, Debug, PartialEq, Eq)]
pub struct BadScript {
    /// The number of the line, from 1 on.
    pub line: u32,
    /// What is wrong with it.
    pub kind: BadKind,
}

/// Why a script was not read.
#[derive(Clone, Copy, Debug, PartialEq, Eq)]
pub enum ScriptError {
    /// It has a bad line, and this is the first.
    Bad(BadScript),
    /// Memory ran out.
    NoMemory,
}

/// Why a line was not taken.
#[derive(Clone, Copy, Debug)]
pub(crate) enum Refusal {
    /// It is bad.
    Wrong(BadKind),
    /// Memory ran out.
    OutOfMemory,
}

impl From<AllocError> for Refusal {
    ghost from_gives = { λ _ refusal. refusal ≡ OutOfMemory };

    fn from(_: AllocError) -> Refusal {
        Refusal::OutOfMemory
    }
}

impl<T: Drop> From<AllocFailed<T>> for Refusal {
    ghost from_gives = { λ _ refusal. refusal ≡ OutOfMemory };

    fn from(_: AllocFailed<T>) -> Refusal {
        Refusal::OutOfMemory
    }
}
