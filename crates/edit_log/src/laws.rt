//! Laws of grammars and their histories.

ghost use Rattle.std.specs.Prelude.{◌≡◌, ◌⊎◌, ◌+◌, List, Contains};
ghost use Rattle.grammar_text.specs.declared.edit.Edit.{Edit};
ghost use Rattle.forest.specs.declared.rules.Rule.{Rule};
ghost use Rattle.edit_log.specs.Facts.{IsWellFormed};
ghost use Rattle.edit_log.specs.History.{Definition, Grammar, after_edit, grammar_of};
ghost use Rattle.edit_log.specs.Verdict.{IsHistory};

/// The grammar of each history is well-formed.
pub fn well_formed_always()
    ensures { (history : List Edit) → IsHistory history → IsWellFormed (grammar_of history) }
{}

/// What an edit makes live has the number of its version, so that no number is used twice.
pub fn numbers_are_new()
    ensures rules { (grammar : Grammar) (edit : Edit) (live : Rule) → Contains (after_edit grammar edit).rules live
        → Contains grammar.rules live ⊎ (live.number.0 ≡ grammar.version + 1) }
    ensures definitions { (grammar : Grammar) (edit : Edit) (live : Definition) → Contains (after_edit grammar edit).definitions live
        → Contains grammar.definitions live ⊎ (live.number.0 ≡ grammar.version + 1) }
{}
