//! The payload of a row: the version in which it was published, and then words that follow from its key, as many as its
//! key says.

ghost use Rattle.std.specs.Prelude.{◌≤◌, ◌<◌};

use crate::keeping::may_stand;

/// A row of a table with eight words has room for so many beside its lengths and its key.
const LONGEST: usize = 5;

/// The words of a payload.
#[derive(Clone, Copy)]
pub(crate) struct Payload {
    /// They lie at its start.
    words: [u64; 5],
    /// How many there are.
    count: usize,
    ghost few: { count ≤ 5 },
}

/// How many words the payload of the key has.
fn count_of(key: u64) -> usize
    ensures { (0 < result) × (result ≤ 5) }
{
    1 + (key % LONGEST as u64) as usize
}

/// The word of the payload at an index that is not 0.
fn word_of(key: u64, index: usize) -> u64 {
    key.wrapping_mul(10).wrapping_add(index as u64)
}

impl Payload {
    /// The payload of a row with the key that is published in the version.
    pub(crate) fn of(key: u64, version: u32) -> Payload {
        let mut words = [version as u64; 5];
        for index in 1..LONGEST {
            words[index] = word_of(key, index);
        }
        Payload {
            words,
            count: count_of(key),
        }
    }

    pub(crate) fn words(&self) -> &[u64] {
        &self.words[..self.count]
    }
}

/// Whether the words are the payload of a row with the key that may stand in the version's page.
pub(crate) fn fits(key: u64, payload: &[u64], version: u32) -> bool {
    if payload.len() != count_of(key) {
        return false;
    }
    for index in 1..payload.len() {
        if payload[index] != word_of(key, index) {
            return false;
        }
    }
    may_stand(key, payload[0], version as u64)
}
