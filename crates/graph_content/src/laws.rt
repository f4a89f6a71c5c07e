//! Laws of what an edit spoils, and of the logs and rows of a shared table.

ghost use Rattle.std.specs.Prelude.{◌≡◌, ◌↔◌, ℕ, List};
ghost use Rattle.grammar_text.specs.declared.edit.Edit.{Edit};
ghost use Rattle.edit_log.specs.declared.touch.Touch.{Touch};
ghost use Rattle.edit_log.specs.History.{Grammar, grammar_of};
ghost use Rattle.edit_log.specs.Verdict.{IsHistory};
ghost use Rattle.pin_rule.specs.declared.content.Entry.{Entry};
ghost use Rattle.row_coding.specs.Rows.{Key, FitsKey};
ghost use Rattle.graph_content.specs.Affected.{IsKey, IsAffected, IsUnaffected};
ghost use Rattle.graph_content.specs.Changes.{IsChange, IsTouched};
ghost use Rattle.graph_content.specs.Rows.{IsRowOf};
ghost use Rattle.graph_content.specs.Contents.{IsLogOf, IsUntouched};

/// An edit affects the keys that it touches. With [`untouched_is_unaffected`] it affects exactly these.
pub fn touched_is_affected()
    ensures { (grammar next : Grammar) (touch : Touch) (key : Key) → IsChange grammar touch next → IsKey grammar key
        → IsTouched grammar touch key → IsAffected grammar next key }
{}

/// An edit leaves each key that it does not touch, and its expansion.
pub fn untouched_is_unaffected()
    ensures { (grammar next : Grammar) (touch : Touch) (key : Key) → IsChange grammar touch next → IsKey grammar key
        → (IsTouched grammar touch key → ⊥) → IsUnaffected grammar next key }
{}

/// A log is that of one history.
pub fn one_history()
    ensures { (log : List Entry) (one other : List Edit) → IsLogOf log one → IsLogOf log other → one ≡ other }
{}

/// The words of a key have room for each dot and index that the grammar of a history has.
pub fn keys_fit()
    ensures { (history : List Edit) (key : Key) → IsHistory history → IsKey (grammar_of history) key → FitsKey key }
{}

/// The rows that an edit leaves are those of the keys that it does not affect, whichever edit with this touch it is.
pub fn kept_is_unaffected()
    ensures { (grammar next : Grammar) (touch : Touch) (key : Key) (row : List ℕ) → IsChange grammar touch next → IsRowOf grammar key row
        → IsUntouched grammar touch row ↔ IsUnaffected grammar next key }
{}
