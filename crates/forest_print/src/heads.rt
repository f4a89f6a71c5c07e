//! How the lines for splits begin.

ghost use Rattle.std.specs.Prelude.{◌≡◌};
ghost use Rattle.forest_print.specs.Parts.{head_text};

use crate::pieces::Piece;
use itoa::Buffer;

/// How the line for a split with this rule and first cut begins. Most splits of a node have both in common.
#[derive(Drop)]
pub(crate) struct Head {
    /// The number of the rule that the text tells.
    pub(crate) rule: u32,
    /// The place between tokens that the text tells: the first cut.
    pub(crate) first: u32,
    /// The word `rule` with the one, and the word `at` with the other.
    pub(crate) text: Piece,
    ghost told: { text ≡ head_text rule first },
}

impl Head {
    pub(crate) fn new(rule: u32, first: u32) -> Head
        ensures rule { result.rule ≡ rule }
        ensures first { result.first ≡ first }
    {
        let mut text = Piece::new();
        text.add(b"rule ");
        text.add(Buffer::new().format(rule).as_bytes());
        text.add(b" at ");
        text.add(Buffer::new().format(first).as_bytes());
        Head { rule, first, text }
    }

    /// Becomes the head of this rule and first cut.
    #[inline(always)]
    pub(crate) fn turn(&mut self, rule: u32, first: u32)
        ensures rule { self.new.rule ≡ rule }
        ensures first { self.new.first ≡ first }
    {
        if self.rule != rule || self.first != first {
            self.renew(rule, first);
        }
    }

    /// The same where it is another one.
    #[inline(never)]
    fn renew(&mut self, rule: u32, first: u32)
        ensures rule { self.new.rule ≡ rule }
        ensures first { self.new.first ≡ first }
    {
        *self = Head::new(rule, first);
    }
}
