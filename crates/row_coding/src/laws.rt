//! Laws of the coding: what is coded can be read, and in one way.

ghost use Rattle.std.specs.Prelude.{◌≡◌, ◌<◌, List};
ghost use Rattle.edit_log.specs.History.{Grammar};
ghost use Rattle.edit_log.specs.Facts.{IsWellFormed};
ghost use Rattle.item_sets.specs.declared.item.Item.{Item};
ghost use Rattle.item_sets.specs.declared.expansion.Expansion.{Expansion};
ghost use Rattle.item_sets.specs.Expansions.{IsExpansionOf};
ghost use Rattle.isg_states.specs.declared.ranges.ScanExpansion.{ScanExpansion};
ghost use Rattle.isg_states.specs.declared.mark.Mark.{Mark};
ghost use Rattle.isg_states.specs.declared.scan_key.ScanKey.{ScanKey};
ghost use Rattle.isg_states.specs.Patterns.{IsMark};
ghost use Rattle.isg_states.specs.Expansion.{IsScanExpansionOf};
ghost use Rattle.row_coding.specs.Words.{item_payload_words, scan_payload_words};
ghost use Rattle.row_coding.specs.Conditions.{FitsCoding, FitsScanCoding, IsTyped, IsTypedScan};
ghost use Rattle.row_coding.specs.Rows.{Key, key_words, FitsKey};

/// Two keys with the same words are the same, be they of kernels or of the scanner.
pub fn one_key()
    ensures { (a b : Key) → FitsKey a → FitsKey b → key_words a ≡ key_words b → a ≡ b }
{}

/// Two expansions of kernels with the same words are the same.
pub fn one_payload()
    ensures { (a b : Expansion) → FitsCoding a → FitsCoding b → item_payload_words a ≡ item_payload_words b → a ≡ b }
{}

/// Two expansions of scanner states with the same words are the same.
pub fn one_scan_payload()
    ensures { (a b : ScanExpansion) → FitsScanCoding a → FitsScanCoding b → scan_payload_words a ≡ scan_payload_words b → a ≡ b }
{}

/// The expansion of a kernel in a grammar can be coded and read.
pub fn expansions_fit()
    ensures { (grammar : Grammar) → IsWellFormed grammar → (kernel : List Item) (expansion : Expansion) → IsExpansionOf grammar.rules kernel expansion
        → FitsCoding expansion × IsTyped expansion }
{}

/// The expansion of a state of the scanner can be coded and read, where the definitions of the grammar are as
/// short as those of a history: a mark has an index below 256.
pub fn scan_expansions_fit()
    ensures { (grammar : Grammar) → IsWellFormed grammar → ((mark : Mark) → IsMark grammar mark → mark.index < 256)
        → (key : ScanKey) (expansion : ScanExpansion) → IsScanExpansionOf grammar key expansion.ranges
        → FitsScanCoding expansion × IsTypedScan expansion }
{}
