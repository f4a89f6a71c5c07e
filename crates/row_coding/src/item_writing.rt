//! Keys and expansions of item sets as words.
//!
//! A payload is counted before it is written, so that its buffer is made once and never grows.

ghost use Rattle.std.specs.Prelude.{◌≡◌, ◌+◌, ◌≤◌, ◌++◌, IfOk, IfSome, length, map, flat_map, vec_len, vec_capacity};
ghost use Rattle.row_coding.specs.Words.{item_word, kernel_words, move_words, item_payload_words};

use crate::NoMemory;
use forest::{RuleId, SymbolId};
use item_sets::{Expansion, Item, Kernel};
use std::alloc::{AllocError, Global};

fn item_word(item: Item) -> u64
    ensures { result ≡ item_word item }
{
    u64::from(item.rule.0) * 32 + u64::from(item.dot)
}

fn push_items(words: &mut Vec<u64>, items: &[Item])
    requires { vec_len words.old + length items.now ≤ vec_capacity words.old }
    ensures items { words.new.items ≡ words.old.items ++ map item_word items.now }
    ensures capacity { vec_capacity words.new ≡ vec_capacity words.old }
{
    for item in items {
        words.push_reserved(item_word(*item));
    }
}

/// The key of a kernel: 1, and its items.
pub fn item_key(alloc: Global, kernel: &Kernel) -> Result<Vec<u64>, NoMemory>
    ensures words { IfOk result (λ key. key.items ≡ kernel_words kernel.now) }
    ensures exact { IfOk result (λ key. vec_capacity key ≡ vec_len key) }
{
    let items = kernel.items();
    let Some(len) = items.len().checked_add(1) else {
        return Err(AllocError);
    };
    let mut key = Vec::with_capacity(alloc, len)?;
    key.push_reserved(1);
    push_items(&mut key, items);
    Ok(key)
}

/// How many words the moves have, where that is a number of the machine.
fn moves_len(moves: &[(SymbolId, Kernel)]) -> Option<usize>
    ensures { IfSome result (λ len. len ≡ length (flat_map move_words moves.now)) }
{
    let mut len: usize = 0;
    for entry in moves {
        len = len.checked_add(2)?.checked_add(entry.1.items().len())?;
    }
    Some(len)
}

fn push_move(words: &mut Vec<u64>, entry: &(SymbolId, Kernel))
    requires { vec_len words.old + length (move_words entry.now) ≤ vec_capacity words.old }
    ensures items { words.new.items ≡ words.old.items ++ move_words entry.now }
    ensures capacity { vec_capacity words.new ≡ vec_capacity words.old }
{
    let items = entry.1.items();
    words.push_reserved(u64::from(entry.0.0));
    words.push_reserved(items.len() as u64);
    push_items(words, items);
}

fn push_moves(words: &mut Vec<u64>, moves: &[(SymbolId, Kernel)])
    requires { vec_len words.old + length (flat_map move_words moves.now) ≤ vec_capacity words.old }
    ensures items { words.new.items ≡ words.old.items ++ flat_map move_words moves.now }
    ensures capacity { vec_capacity words.new ≡ vec_capacity words.old }
{
    for entry in moves {
        push_move(words, entry);
    }
}

fn push_rules(words: &mut Vec<u64>, rules: &[RuleId])
    requires { vec_len words.old + length rules.now ≤ vec_capacity words.old }
    ensures items { words.new.items ≡ words.old.items ++ map (λ rule. rule.0) rules.now }
    ensures capacity { vec_capacity words.new ≡ vec_capacity words.old }
{
    for rule in rules {
        words.push_reserved(u64::from(rule.0));
    }
}

fn item_payload_len(moves: &[(SymbolId, Kernel)], reductions: &[RuleId]) -> Option<usize>
    ensures { IfSome result (λ len. len ≡ 2 + length (flat_map move_words moves.now) + length reductions.now) }
{
    moves_len(moves)?
        .checked_add(reductions.len())?
        .checked_add(2)
}

/// The payload of an item set: the numbers of its moves and reductions, the moves, and the reductions.
pub fn item_payload(alloc: Global, expansion: &Expansion) -> Result<Vec<u64>, NoMemory>
    ensures words { IfOk result (λ payload. payload.items ≡ item_payload_words expansion.now) }
    ensures exact { IfOk result (λ payload. vec_capacity payload ≡ vec_len payload) }
{
    let moves = expansion.moves.as_slice();
    let reductions = expansion.reductions.as_slice();
    let Some(len) = item_payload_len(moves, reductions) else {
        return Err(AllocError);
    };
    let mut payload = Vec::with_capacity(alloc, len)?;
    payload.push_reserved(moves.len() as u64);
    payload.push_reserved(reductions.len() as u64);
    push_moves(&mut payload, moves);
    push_rules(&mut payload, reductions);
    Ok(payload)
}
