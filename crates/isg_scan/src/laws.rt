//! What is true of scans, whatever computes them.

ghost use Rattle.std.specs.Prelude.{◌≡◌, ℕ, List};
ghost use Rattle.edit_log.specs.History.{Grammar};
ghost use Rattle.edit_log.specs.Tokens.{Scan, Tokenizes};
ghost use Rattle.isg_scan.specs.declared.scanning.TheConstants.{SCAN_LIMIT};

/// A text is scanned in one way only: its tokens, or why it has none, are told by the grammar.
pub fn one_scan()
    ensures { (grammar : Grammar) (text : List ℕ) (one other : Scan) → Tokenizes grammar text one → Tokenizes grammar text other → one ≡ other }
{}

/// The number of the limit on texts.
pub fn limits_of_scans()
    ensures text { SCAN_LIMIT ≡ 65536 }
{}
