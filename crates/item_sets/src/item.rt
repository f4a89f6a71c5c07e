//! Items.

ghost use Rattle.std.specs.Prelude.{◌≡◌};
ghost use Rattle.item_sets.specs.Prefixes.{start_item};

use forest::RuleId;

/// A rule with a dot on its right side: so many symbols stand before the dot. Rule 0 is the one that derives
/// `START` alone.
#[derive(Clone, Copy, PartialEq, Eq, PartialOrd, Ord, Hash)]
pub struct Item {
    /// The number of the rule.
    pub rule: RuleId,
    /// How many symbols of the right side stand before the dot.
    pub dot: u8,
}

/// The item that a parse begins with.
impl Default for Item {
    ghost is_default = { λ item. item ≡ start_item };

    fn default() -> Item {
        Item {
            rule: RuleId(0),
            dot: 0,
        }
    }
}
