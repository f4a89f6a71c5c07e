//! What has been read of a script.

ghost use Rattle.std.specs.Prelude.{◌≡◌, ◌<◌, ◌≤◌, ◌↔◌, length, IsTrue, IfErr, OnOk};
ghost use Rattle.grammar_text.specs.Pieces.{IsLine};
ghost use Rattle.script_text.specs.declared.limits.TheConstants.{COMMAND_LIMIT};
ghost use Rattle.script_text.specs.Scripts.{nothing, with_command, count_of, ReadsLine, IsBad};
ghost use Rattle.script_text.specs.Seen.{IsReason};

use crate::bad_script::{BadKind, Refusal};
use crate::command::{Block, Blocks, Command, Script};
use crate::form::{Line, form_of};
use crate::limits::COMMAND_LIMIT;
use crate::reading::read_command;
use grammar_text::LINE_LIMIT;
use std::alloc::{AllocError, Global};
use std::marker::Model;

/// What has been read of a script.
#[derive(Drop)]
pub(crate) struct Progress {
    /// The blocks of the lines that were taken.
    blocks: Vec<Block>,
    /// How many commands the blocks have.
    count: usize,
}

impl Model for Progress {
    ghost use Rattle.std.specs.Prelude.{◌≡◌};
    ghost use Rattle.script_text.specs.Scripts.{Read, count_of};

    ghost Value = { Read };

    ghost view = { λ progress. record { blocks = progress.blocks.items } };

    ghost invariant = { λ progress. progress.count ≡ count_of (record { blocks = progress.blocks.items }) };
}

impl Progress {
    pub(crate) fn new(alloc: Global) -> Progress
        ensures { result ≡ nothing }
    {
        Progress {
            blocks: Vec::new(alloc),
            count: 0,
        }
    }

    /// Whether a command more is one too many.
    fn is_full(&self) -> bool
        ensures { IsTrue result ↔ (COMMAND_LIMIT ≤ count_of self.now) }
    {
        self.count >= COMMAND_LIMIT
    }

    /// Adds a command that stands alone.
    fn add(&mut self, command: Command) -> Result<(), AllocError>
        requires { count_of self.old < COMMAND_LIMIT }
        ensures { OnOk result (self.new ≡ with_command self.old command) }
    {
        self.blocks.push(Block::Alone(command))?;
        self.count += 1;
        Ok(())
    }

    /// Takes the next line of the script.
    pub(crate) fn take(&mut self, alloc: Global, line: &[u8]) -> Result<(), Refusal>
        requires short { length line.now ≤ LINE_LIMIT }
        requires one_line { IsLine line.now }
        ensures takes { OnOk result (ReadsLine self.old line.now self.new) }
        ensures refused { IfErr result (IsReason (IsBad self.old line.now)) }
    {
        let ask = match form_of(line) {
            Line::PassedOver => return Ok(()),
            Line::Unknown => return Err(Refusal::Wrong(BadKind::UnknownCommand)),
            Line::Command(ask) => ask,
        };
        if self.is_full() {
            return Err(Refusal::Wrong(BadKind::TooManyCommands));
        }
        let command = read_command(alloc, line, ask)?;
        self.add(command)?;
        Ok(())
    }

    /// The script, where all its lines have been taken.
    pub(crate) fn into_script(self) -> Script
        ensures { result.blocks ≡ self.blocks }
    {
        Script {
            blocks: Blocks::from_vec(self.blocks),
        }
    }
}
