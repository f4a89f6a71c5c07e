//! The words of the command line.

ghost use Rattle.std.specs.Prelude.{◌≡◌, ◌≢◌, IfOk, IsErrOf};
ghost use Rattle.clap.specs.Words.{app_of, kind_of};
ghost use Rattle.clap.specs.Walk.{texts};
ghost use Rattle.workbench.specs.Words.{command_line, TakesWords, asks_stats};

use clap::error::ErrorKind;
use clap::{Arg, ArgAction, Command, Error};
use std::alloc::{AllocError, Global};

/// Why the words were not read.
#[derive(Clone, Copy, PartialEq, Eq)]
pub(crate) enum WordsError {
    /// The command does not take them.
    Bad,
    /// There was no memory.
    NoMemory,
}

impl From<AllocError> for WordsError {
    ghost use Rattle.workbench.specs.declared.words.WordsError.TheVariants.{NoMemory as no_memory};

    ghost from_gives = { λ _ error. error ≡ no_memory };

    fn from(_: AllocError) -> Self {
        WordsError::NoMemory
    }
}

/// Why words are not read that have this error.
fn why(error: &Error) -> WordsError
    ensures { result ≡ WordsError.Bad → kind_of error.now ≢ ErrorKind.OutOfMemory }
{
    match error.kind() {
        ErrorKind::OutOfMemory => WordsError::NoMemory,
        _ => WordsError::Bad,
    }
}

/// The command that knows the flag and nothing else.
fn known_command<'a>(alloc: Global) -> Result<Command<'a>, AllocError>
    ensures { IfOk result (λ command. app_of command ≡ command_line) }
{
    let stats = Arg::new(alloc, "stats")
        .long("stats")
        .action(ArgAction::SetTrue);
    let command = Command::new(alloc, "workbench")
        .disable_help_flag(true)
        .arg(stats)?;
    Ok(command)
}

/// Reads the words of the command line: whether the lines are asked for that tell how lazy each command was.
pub(crate) fn read_words<'a>(alloc: Global, words: &'a [&'a str]) -> Result<bool, WordsError>
    ensures taken { IfOk result (λ stats. TakesWords (texts words.entry.now)) }
    ensures asked { IfOk result (λ stats. stats ≡ asks_stats (texts words.entry.now)) }
    ensures bad { IsErrOf result WordsError.Bad → TakesWords (texts words.entry.now) → ⊥ }
{
    let command = known_command(alloc)?;
    match command.try_get_matches_from(words) {
        Ok(matches) => Ok(matches.get_flag("stats")),
        Err(error) => Err(why(&error)),
    }
}
