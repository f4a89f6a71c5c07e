//! Expansions of item sets from their words.

ghost use Rattle.std.specs.Prelude.{◌≡◌, ℕ, ◌<◌, ◌^◌, ◌/◌, List, IfOk, All, length, slice_index, map};
ghost use Rattle.item_sets.specs.declared.expansion.Expansion.{Expansion};
ghost use Rattle.row_coding.specs.Words.{item_payload_words};
ghost use Rattle.row_coding.specs.Conditions.{FitsCoding, IsTyped};
ghost use Rattle.row_coding.specs.Reading.{Move, symbol_of, rule_id, item_of, counted_words, AreItemWords, BeginWithMove, BeginWithMoves};

use crate::NoMemory;
use crate::pieces::{counted_words, rest_of};
use forest::{RuleId, SymbolId};
use item_sets::{Expansion, Item, Kernel, Moves, Reductions};
use smallvec::SmallVec;
use std::alloc::Global;

/// Where the items of a kernel are put together: up to sixteen take no memory.
type Buffer = SmallVec<Item, 16>;

fn item_of(word: u64) -> Item
    requires { word / 32 < 2 ^ 32 }
    ensures { result ≡ item_of word }
{
    Item {
        rule: RuleId((word / 32) as u32),
        dot: (word % 32) as u8,
    }
}

fn read_kernel(alloc: Global, words: &[u64], items: &mut Buffer) -> Result<Kernel, NoMemory>
    requires { AreItemWords words.now }
    ensures { IfOk result (λ kernel. kernel ≡ map item_of words.now) }
{
    if words.len() == 1 {
        return Ok(Kernel::of_one(alloc, item_of(words[0])));
    }
    items.clear();
    for word in words {
        items.push(item_of(*word))?;
    }
    Kernel::of(alloc, items.as_slice())
}

fn read_move(
    alloc: Global,
    words: &[u64],
    items: &mut Buffer,
) -> Result<(SymbolId, Kernel), NoMemory>
    requires { BeginWithMove words.now }
    ensures { IfOk result (λ entry. entry ≡ (symbol_of (slice_index words.now 0), map item_of (counted_words words.now))) }
{
    let kernel = read_kernel(alloc, counted_words(words), items)?;
    Ok((SymbolId(words[0] as u32), kernel))
}

/// The moves that these words begin with.
fn read_moves(
    alloc: Global,
    count: usize,
    words: &[u64],
) -> Result<Vec<(SymbolId, Kernel)>, NoMemory>
    requires { (moves : List Move) × (rest : List ℕ) × BeginWithMoves words.now moves rest × (length moves ≡ count) }
    ensures { IfOk result (λ found. (moves : List Move) (rest : List ℕ) → BeginWithMoves words.now moves rest → length moves ≡ count
        → found.items ≡ moves) }
{
    let mut moves = Vec::with_capacity(alloc, count)?;
    let mut items = SmallVec::new(alloc);
    let mut rest = words;
    for _i in 0..count {
        moves.push_reserved(read_move(alloc, rest, &mut items)?);
        rest = rest_of(rest);
    }
    Ok(moves)
}

fn read_rules(alloc: Global, words: &[u64]) -> Result<Vec<RuleId>, NoMemory>
    requires { All (λ word. word < 2 ^ 32) words.now }
    ensures { IfOk result (λ found. found.items ≡ map rule_id words.now) }
{
    let mut rules = Vec::with_capacity(alloc, words.len())?;
    for word in words {
        rules.push_reserved(RuleId(*word as u32));
    }
    Ok(rules)
}

/// The expansion of a kernel that these words code.
pub fn read_items(alloc: Global, payload: &[u64]) -> Result<Expansion, NoMemory>
    requires { (coded : Expansion) × FitsCoding coded × IsTyped coded × (payload.now ≡ item_payload_words coded) }
    ensures { IfOk result (λ found. (coded : Expansion) → FitsCoding coded → payload.now ≡ item_payload_words coded → found ≡ coded) }
{
    let moves = read_moves(alloc, payload[0] as usize, &payload[2..])?;
    let first = payload.len() - payload[1] as usize;
    let reductions = read_rules(alloc, &payload[first..])?;
    Ok(Expansion {
        moves: Moves::from_vec(moves),
        reductions: Reductions::from_vec(reductions),
    })
}
