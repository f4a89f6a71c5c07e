//! What is true of parses, whatever computes them.

ghost use Rattle.std.specs.Prelude.{◌≡◌, ◌≤◌, ℕ, List};
ghost use Rattle.forest.specs.declared.symbols.SymbolId.{SymbolId};
ghost use Rattle.forest.specs.declared.rules.Rule.{Rule};
ghost use Rattle.forest.specs.declared.forest.Forest.{Forest};
ghost use Rattle.forest.specs.Derivation.{IsSentence};
ghost use Rattle.forest.specs.Forests.{IsForestOf};
ghost use Rattle.rekers.specs.States.{IsLastViable};
ghost use Rattle.rekers.specs.Size.{IsSize, IsAbove};

/// A text has one size.
pub fn one_size()
    ensures { (rules : List Rule) (kinds : List SymbolId) (a b : ℕ) → IsSize rules kinds a → IsSize rules kinds b → a ≡ b }
{}

/// The size of a text is above a limit, or it is not.
pub fn within_or_above()
    ensures { (rules : List Rule) (kinds : List SymbolId) (size limit : ℕ) → IsSize rules kinds size → size ≤ limit → IsAbove rules kinds limit → ⊥ }
{}

/// A text has one last place where a state is reached.
pub fn one_last_viable()
    ensures { (rules : List Rule) (kinds : List SymbolId) (a b : ℕ) → IsLastViable rules kinds a → IsLastViable rules kinds b → a ≡ b }
{}

/// A text has one forest, and none where START does not derive it.
pub fn one_answer()
    ensures one { (rules : List Rule) (kinds : List SymbolId) (a b : Forest) → IsForestOf rules kinds a → IsForestOf rules kinds b → a.nodes ≡ b.nodes }
    ensures none { (rules : List Rule) (kinds : List SymbolId) (a : Forest) → IsForestOf rules kinds a → (IsSentence rules kinds → ⊥) → ⊥ }
{}
