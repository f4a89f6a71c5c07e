//! What is true of states and their expansions, whatever computes them.

ghost use Rattle.std.specs.Prelude.{◌≡◌, ◌<◌, ◌↔◌, ℕ, List, [], ◌∷◌, ◌++◌, length, Contains};
ghost use Rattle.edit_log.specs.declared.definitions.DefId.{DefId};
ghost use Rattle.edit_log.specs.History.{Grammar};
ghost use Rattle.edit_log.specs.Live.{IsLive};
ghost use Rattle.edit_log.specs.Tokens.{MatchesPiece, IsWinner};
ghost use Rattle.isg_states.specs.declared.mark.Mark.{Mark};
ghost use Rattle.isg_states.specs.declared.scan_key.ScanKey.{ScanKey};
ghost use Rattle.isg_states.specs.declared.scan_key.ScanKey.TheVariants.{Start, Set};
ghost use Rattle.isg_states.specs.Marks.{ListsMarks};
ghost use Rattle.isg_states.specs.Patterns.{IsLastMark};
ghost use Rattle.isg_states.specs.After.{IsAfter};
ghost use Rattle.grammar_text.specs.Pieces.{AreBytes};
ghost use Rattle.isg_states.specs.Expansion.{Range, AreMarks, LeadsTo, IsScanExpansionOf, IsScanCost};
ghost use Rattle.isg_states.specs.Winners.{Accepts};

/// From the start a byte leads to exactly the positions after the piece of that byte.
pub fn after_first()
    ensures { (grammar : Grammar) (byte : ℕ) (mark : Mark) → LeadsTo grammar Start byte mark ↔ IsAfter grammar (byte ∷ []) mark }
{}

/// From the positions after a piece, which is not empty, a byte leads to exactly the positions after the piece with that byte.
pub fn after_longer()
    ensures { (grammar : Grammar) (piece : List ℕ) (marks : List Mark) → 0 < length piece → ListsMarks (IsAfter grammar piece) marks → (byte : ℕ) (mark : Mark)
        → LeadsTo grammar (Set marks) byte mark ↔ IsAfter grammar (piece ++ byte ∷ []) mark }
{}

/// A live definition matches a piece exactly where one of its positions after the piece is a last one.
pub fn last_is_match()
    ensures { (grammar : Grammar) (piece : List ℕ) (definition : DefId) → 0 < length piece → AreBytes piece → IsLive grammar definition
        → MatchesPiece grammar definition piece ↔ ((mark : Mark) × (mark.def ≡ definition) × IsAfter grammar piece mark × IsLastMark grammar mark) }
{}

/// The positions after a piece accept exactly the definition that wins it.
pub fn accepted_is_winner()
    ensures { (grammar : Grammar) (piece : List ℕ) (marks : List Mark) → 0 < length piece → AreBytes piece → ListsMarks (IsAfter grammar piece) marks
        → (definition : DefId) → Accepts grammar (Set marks) definition ↔ IsWinner grammar piece definition }
{}

/// A byte leads to a state of the grammar.
pub fn targets_are_marks()
    ensures { (grammar : Grammar) (key : ScanKey) (ranges : List Range) → IsScanExpansionOf grammar key ranges
        → (range : Range) → Contains ranges range → AreMarks grammar range.2 }
{}

/// A state has one expansion.
pub fn one_expansion()
    ensures { (grammar : Grammar) (key : ScanKey) (one other : List Range)
        → IsScanExpansionOf grammar key one → IsScanExpansionOf grammar key other → one ≡ other }
{}

/// A state has one cost.
pub fn one_cost()
    ensures { (grammar : Grammar) (key : ScanKey) (one other : ℕ) → IsScanCost grammar key one → IsScanCost grammar key other → one ≡ other }
{}

/// A state accepts at most one definition.
pub fn one_accepted()
    ensures { (grammar : Grammar) (key : ScanKey) (one other : DefId) → Accepts grammar key one → Accepts grammar key other → one ≡ other }
{}
