//! What a script asks for.

use grammar_text::{Edit, Text};
use lists::ListOf;

/// What one line of a script asks for.
#[derive(Debug, Drop)]
pub enum Command {
    /// To change the grammar.
    Edit(Edit),
    /// To parse the text.
    Parse(Text),
    /// To scan the text into tokens.
    Tokens(Text),
    /// To tell what the tables hold.
    Stats,
}

/// Commands in their order.
pub type Commands = ListOf<Command>;

/// A part of a script.
#[derive(Debug, Drop)]
pub enum Block {
    /// A command that runs by itself.
    Alone(Command),
    /// The commands of a section, which run at the same time.
    Par(Commands),
}

/// Blocks in their order.
pub type Blocks = ListOf<Block>;

/// A script that was read: its blocks in the order of its lines.
#[derive(Debug, Drop)]
pub struct Script {
    /// Its commands and sections.
    pub blocks: Blocks,
}
