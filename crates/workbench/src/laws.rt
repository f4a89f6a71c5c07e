//! What the definition of the output says.

ghost use Rattle.std.specs.Prelude.{◌≡◌, ◌≤◌, ◌⊎◌, ◌↔◌, ◌∷◌, List, Bool, [], ℕ, false, codes, length};
ghost use Rattle.std.specs.List.{AllByRecursion};
ghost use Rattle.edit_log.specs.History.{empty_grammar};
ghost use Rattle.pin_rule.specs.Layout.{full_sizes};
ghost use Rattle.row_coding.specs.Rows.{Key};
ghost use Rattle.script_text.specs.declared.command.Block.{Block};
ghost use Rattle.script_text.specs.declared.command.Script.{Script};
ghost use Rattle.script_text.specs.declared.bad_script.BadScript.{BadScript};
ghost use Rattle.script_text.specs.declared.limits.TheConstants.{SCRIPT_LIMIT};
ghost use Rattle.script_text.specs.Scripts.{SpellsScript, IsFirstBad};
ghost use Rattle.replies.specs.Blocks.{IsProperBlock, grammar_after_all};
ghost use Rattle.sections.specs.HeldKeys.{held_in, held_after, IsRoomy};
ghost use Rattle.workbench.specs.Benches.{AreAnswers, no_key};
ghost use Rattle.workbench.specs.Words.{TakesWords, AreKnownWords};
ghost use Rattle.workbench.specs.Output.{IsOutput, HasNoStats};

/// Behind the program's name stands nothing, or the flag once, and `--` may end the words.
pub fn words_taken()
    ensures { (name : List ℕ) (words : List (List ℕ)) → TakesWords (name ∷ words) ↔ AreKnownWords words }
{}

/// A script whose commands do not ask what is held has at most one output, where none tells how lazy it was.
pub fn one_output()
    ensures { (script a b : List ℕ) → HasNoStats script → IsOutput false script a → IsOutput false script b → a ≡ b }
{}

/// Where there is room for all keys, the graph behind the commands of a script holds exactly the keys that they reached and
/// that no edit behind that took away.
pub fn graph_of_roomy_script()
    ensures { (stats : Bool) (blocks : List Block) (last : List (List ℕ)) (lines : List ℕ) → AllByRecursion IsProperBlock blocks
        → AreAnswers stats full_sizes empty_grammar blocks [] last lines → IsRoomy full_sizes empty_grammar blocks no_key → (key : Key)
        → held_in (grammar_after_all empty_grammar blocks) last key ↔ held_after full_sizes empty_grammar blocks no_key key }
{}

/// A script that is not too long has commands or a first bad line.
pub fn good_or_bad()
    ensures { (script : List ℕ) → length script ≤ SCRIPT_LIMIT
        → ((read : Script) × SpellsScript script read) ⊎ ((bad : BadScript) × IsFirstBad script bad) }
{}
