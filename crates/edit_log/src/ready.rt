//! An edit that is ready to be applied.

ghost use Rattle.std.specs.Prelude.{◌≡◌};
ghost use Rattle.grammar_text.specs.declared.edit.Edit.{Edit as AnEdit};
ghost use Rattle.edit_log.specs.Replicas.{Replica, IsReadyFor};
ghost use Rattle.edit_log.specs.Touches.{IsTouchOf};

use crate::fresh_symbols::FreshSymbol;
use crate::named_definitions::NamedDefinition;
use crate::touch::Touch;
use forest::{Rule, RuleId};
use grammar_text::{Name, RuleText};

/// A rule to add.
#[derive(Drop)]
pub(crate) struct NewRule {
    /// The rule as it is written, by which its number is found.
    pub(crate) text: RuleText,
    /// The same rule with the number that it gets, and its symbols by theirs.
    pub(crate) live: Rule,
    /// The symbols of the rule that have no number yet, in the order in which they get one.
    pub(crate) fresh: Vec<FreshSymbol>,
}

/// A rule to drop.
#[derive(Drop)]
pub(crate) struct OldRule {
    /// The rule as it is written, by which its number is found.
    pub(crate) text: RuleText,
    /// The number that it has until it is dropped.
    pub(crate) number: RuleId,
}

/// A token or a skip to add.
#[derive(Drop)]
pub(crate) struct NewDefinition {
    /// Its name, by which its number is found.
    pub(crate) name: Name,
    /// The token or skip with the number that it gets.
    pub(crate) live: NamedDefinition,
    /// The symbol of the name where that has no number yet, and else none.
    pub(crate) fresh: Vec<FreshSymbol>,
}

/// A token or a skip to drop.
#[derive(Drop)]
pub(crate) struct OldDefinition {
    /// Its name, by which its number is found.
    pub(crate) name: Name,
    /// The number that it has until it is dropped.
    pub(crate) number: RuleId,
}

/// What an edit does to a grammar, with the memory for it.
#[derive(Drop)]
pub(crate) enum Plan {
    AddRule(NewRule),
    DropRule(OldRule),
    AddDefinition(NewDefinition),
    DropDefinition(OldDefinition),
}

/// An edit with all the memory that it needs, for one grammar at one version.
#[derive(Drop)]
pub struct Ready {
    /// What is done to the grammar.
    pub(crate) plan: Plan,
    /// What that touches.
    pub(crate) touch: Touch,
}

impl Ready {
    /// What the edit touches.
    pub fn touch(&self) -> &Touch
        ensures { (replica : Replica) (edit : AnEdit) → IsReadyFor replica edit self.now
            → IsTouchOf replica.grammar edit result.now }
    {
        &self.touch
    }
}
