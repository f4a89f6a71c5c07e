//! Reductions as a parser needs them.

ghost use Rattle.std.specs.Prelude.{◌≡◌, ◌++◌, ◌≤◌, length, OnOk};
ghost use Rattle.edit_log.specs.Facts.{IsWellFormed};
ghost use Rattle.parser_states.specs.Finished.{reductions_told};

use edit_log::Grammar;
use forest::{RuleId, SymbolId};
use live_graph::NoMemory;

/// A live rule that is finished in a state, with its left side and the length of its right side.
#[derive(Clone, Copy, PartialEq, Eq)]
pub struct Reduction {
    /// The number of the rule.
    pub rule: RuleId,
    /// Its left side.
    pub left: SymbolId,
    /// How many symbols its right side has.
    pub length: u32,
}

/// Appends the reductions by those of the rules whose right sides are empty, or by the others. Rule 0 is not live.
pub(crate) fn add_reductions(
    reductions: &mut Vec<Reduction>,
    grammar: &Grammar,
    finished: &[RuleId],
    empty: bool,
) -> Result<(), NoMemory>
    requires { IsWellFormed grammar.now.grammar }
    ensures adds { OnOk result (reductions.new.items ≡ reductions.old.items ++ reductions_told grammar.now.grammar.rules empty finished.now) }
    ensures grows { length reductions.old.items ≤ length reductions.new.items }
{
    for number in finished {
        let Some(rule) = grammar.rule(*number) else {
            continue;
        };
        let length = rule.right.as_slice().len();
        if (length == 0) != empty {
            continue;
        }
        reductions.push(Reduction {
            rule: rule.number,
            left: rule.left,
            length: length as u32,
        })?;
    }
    Ok(())
}
