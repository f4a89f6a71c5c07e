//! The command of a line.

ghost use Rattle.std.specs.Prelude.{◌≤◌, IfOk, IfSome, IsTrue, length};
ghost use Rattle.script_text.specs.declared.limits.TheConstants.{SCRIPT_LIMIT};
ghost use Rattle.replies.specs.Blocks.{IsProperCommand};

use edit_lines::proper;
use script_text::{Block, Command, SCRIPT_LIMIT, ScriptError, TEXT_LIMIT, read_script};
use std::alloc::{AllocError, Global};

/// Whether the command is a text to parse or to scan that is not too long, or asks what is held.
fn is_proper_text(command: &Command) -> bool
    ensures { IsTrue result → IsProperCommand command.now }
{
    match command {
        Command::Edit(_) => false,
        Command::Parse(text) => text.bytes().len() <= TEXT_LIMIT,
        Command::Tokens(text) => text.bytes().len() <= TEXT_LIMIT,
        Command::Stats => true,
    }
}

/// The command, where it is proper and no edit.
fn other_than_edit(command: Command) -> Option<Command>
    ensures { IfSome result IsProperCommand }
{
    if is_proper_text(&command) {
        return Some(command);
    }
    None
}

/// The command of a block.
fn command_in(block: Block) -> Option<Command> {
    match block {
        Block::Alone(command) => Some(command),
        Block::Par(_) => None,
    }
}

/// The last block of the script that the bytes spell. Behind this function it is a plain value.
fn block_of(alloc: Global, bytes: &[u8]) -> Result<Option<Block>, AllocError>
    requires { length bytes.now ≤ SCRIPT_LIMIT }
{
    match read_script(alloc, bytes) {
        Ok(script) => Ok(script.blocks.into_vec().pop()),
        Err(ScriptError::NoMemory) => Err(AllocError),
        Err(ScriptError::Bad(_)) => Ok(None),
    }
}

/// The command that the bytes spell.
fn spelled(alloc: Global, bytes: &[u8]) -> Result<Option<Command>, AllocError> {
    if bytes.len() > SCRIPT_LIMIT {
        return Ok(None);
    }
    match block_of(alloc, bytes)? {
        Some(block) => Ok(command_in(block)),
        None => Ok(None),
    }
}

/// The command of a line that asks for no edit.
pub(crate) fn other_of(alloc: Global, line: &str) -> Result<Option<Command>, AllocError>
    ensures { IfOk result (λ found. IfSome found IsProperCommand) }
{
    match spelled(alloc, line.as_bytes())? {
        Some(command) => Ok(other_than_edit(command)),
        None => Ok(None),
    }
}

/// The edit of a line. A line that is none counts as out of memory.
pub(crate) fn edit_of(alloc: Global, line: &str) -> Result<Command, AllocError>
    ensures { IfOk result IsProperCommand }
{
    let edit = proper(alloc, line)?;
    Ok(Command::Edit(edit))
}
