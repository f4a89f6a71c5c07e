//! Whether spans are different, by comparing each two.

ghost use Rattle.std.specs.Prelude.{◌≡◌, ◌<◌, ◌↔◌, ℕ, IsTrue, IsFalse, Some, slice_get, length};
ghost use Rattle.packed_spans.specs.declared.span.Span.{Span};
ghost use Rattle.packed_spans.specs.Complete.{AreDifferent};

use packed_spans::{PackedSpans, Span};

/// Whether the spans have the same symbol and ends.
fn is_same(a: Span, b: Span) -> bool
    ensures { IsTrue result ↔ (a ≡ b) }
{
    a == b
}

/// Whether a later span is the same.
fn comes_again(spans: &PackedSpans, number: u32, count: u32) -> bool
    requires number { number < count }
    requires count { count ≡ length spans.now.spans }
    ensures { IsFalse result → (n : ℕ) (span : Span) → number < n → slice_get spans.now.spans number ≡ Some span
        → slice_get spans.now.spans n ≡ Some span → ⊥ }
{
    for other in number + 1..count {
        if is_same(spans.span(number), spans.span(other)) {
            return true;
        }
    }
    false
}

/// Whether no two spans are the same.
pub(crate) fn are_different(spans: &PackedSpans) -> bool
    ensures { IsTrue result → AreDifferent spans.now.spans }
{
    let Ok(count) = u32::try_from(spans.span_count()) else {
        return false;
    };
    for number in 0..count {
        if comes_again(spans, number, count) {
            return false;
        }
    }
    true
}
