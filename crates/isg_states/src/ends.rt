//! Where the marks to which bytes lead can change, for 64 bytes at once.

ghost use Rattle.std.specs.Prelude.{◌≡◌, ◌<◌, ◌≤◌, ℕ};
ghost use Rattle.std.specs.Int.{bit_at};
ghost use Rattle.isg_states.specs.Candidates.{AreEnds};

use crate::candidates::Candidate;

/// The bits of those of the 64 bytes from 64 times `number` on that a class tells from the byte behind them.
pub(crate) fn ends_of(candidates: &[Candidate], number: usize) -> u64
    requires { number < 4 }
    ensures { AreEnds candidates.now number result }
{
    let mut ends = 0;
    for candidate in candidates {
        let word = candidate.class.word(number);
        ends |= word ^ (word >> 1);
    }
    ends
}

/// The first bit from `low` on that is set, or the highest bit of the word.
pub(crate) fn end_from(ends: u64, low: u32) -> u32
    requires { low < 64 }
    ensures from { low ≤ result }
    ensures within { result < 64 }
    ensures none { (bit : ℕ) → low ≤ bit → bit < result → bit_at ends bit ≡ 0 }
{
    let zeros = (ends >> low).trailing_zeros();
    (low + zeros).min(63)
}
