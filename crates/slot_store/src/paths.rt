//! The path of a key through a page: from its first place on through all
//! places, and from the last to place 0.

ghost use Rattle.std.specs.Prelude.{◌≡◌, ◌<◌, ◌+◌, ℕ, List};
ghost use Rattle.pin_rule.specs.Rows.{on_path, hashed};

use pin_rule::sizes::Sizes;

/// Mixes the words of the key. The multiplier is odd and near 2 to the 64th
/// divided by the golden ratio, as in Fibonacci hashing.
fn mixed(key: &[u64]) -> u64
    ensures { result ≡ hashed 0 key.now }
{
    let mut hash = 0u64;
    for i in 0..key.len() {
        hash = (hash ^ key[i]).wrapping_mul(0x9E37_79B9_7F4A_7C15);
    }
    hash
}

/// The first place of the key's path.
pub fn first_place(sizes: Sizes, key: &[u64]) -> u32
    ensures { result ≡ on_path sizes key.now 0 }
{
    ((mixed(key) >> 32) % sizes.places as u64) as u32
}

/// The place after this one on each path that comes by it.
pub fn next_place(sizes: Sizes, place: u32) -> u32
    requires { place < sizes.places }
    ensures { (key : List ℕ) (step : ℕ) → place ≡ on_path sizes key step → result ≡ on_path sizes key (step + 1) }
{
    if place + 1 < sizes.places {
        place + 1
    } else {
        0
    }
}
