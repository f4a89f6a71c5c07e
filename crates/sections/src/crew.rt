//! What is kept from command to command.

ghost use Rattle.std.specs.Prelude.{◌≡◌, IfOk};
ghost use Rattle.edit_log.specs.History.{empty_grammar};

use edit_log::Grammar;
use live_graph::NoMemory;
use rekers::Parser;
use std::alloc::Global;
use std::marker::Model;

/// What serves command after command beside the table. A contract sees the grammar.
#[derive(Drop)]
pub struct Crew {
    /// The grammar that the commands so far made, as the editor has it.
    pub(crate) grammar: Grammar,
    /// The parser, whose buffers serve text after text.
    pub(crate) parser: Parser,
}

impl Model for Crew {
    ghost use Rattle.edit_log.specs.History.{Grammar as TheGrammar};

    ghost Value = { TheGrammar };

    ghost view = { λ crew. crew.grammar.grammar };
}

impl Crew {
    /// With the empty grammar.
    pub fn new(alloc: Global) -> Result<Crew, NoMemory>
        ensures { IfOk result (λ crew. crew ≡ empty_grammar) }
    {
        Ok(Crew {
            grammar: Grammar::empty(alloc)?,
            parser: Parser::new(alloc),
        })
    }

    /// The grammar that the commands so far made. It takes no memory.
    pub fn grammar(&self) -> &Grammar
        ensures { result.now.grammar ≡ self.now }
    {
        &self.grammar
    }
}
