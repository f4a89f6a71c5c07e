//! Laws of scripts.

ghost use Rattle.std.specs.Prelude.{◌≡◌, ◌⊎◌, List, ℕ, IsTrue};
ghost use Rattle.grammar_text.specs.declared.edit.Edit.{Edit};
ghost use Rattle.grammar_text.specs.Spelling.{keyword_of};
ghost use Rattle.script_text.specs.declared.command.Script.{Script};
ghost use Rattle.script_text.specs.declared.bad_script.BadScript.{BadScript};
ghost use Rattle.script_text.specs.Forms.{begins_edit};
ghost use Rattle.script_text.specs.Scripts.{SpellsScript, IsFirstBad};

/// A text spells at most one script.
pub fn one_script()
    ensures { (bytes : List ℕ) (a b : Script) → SpellsScript bytes a → SpellsScript bytes b → a ≡ b }
{}

/// A text has a first bad line exactly where it spells no script, and only one.
pub fn has_first_bad()
    ensures some { (bytes : List ℕ) → ((script : Script) × SpellsScript bytes script)
        ⊎ ((bad : BadScript) × IsFirstBad bytes bad) }
    ensures not_both { (bytes : List ℕ) (script : Script) (bad : BadScript) →
        SpellsScript bytes script → IsFirstBad bytes bad → ⊥ }
    ensures one { (bytes : List ℕ) (a b : BadScript) → IsFirstBad bytes a → IsFirstBad bytes b → a ≡ b }
{}

/// A line that begins as some edit does is read as an edit.
pub fn edit_words()
    ensures { (edit : Edit) → IsTrue (begins_edit (keyword_of edit)) }
{}
