//! The questions of the input.

use crate::telling::{told_link, told_node, told_paths};
use gss::Stacks;
use std::alloc::{AllocError, Global};

/// The number that a word is.
fn number_of(word: &str) -> u32 {
    match word.parse::<u32>() {
        Ok(number) => number,
        Err(_) => u32::MAX,
    }
}

/// The numbers of the text, which blanks part.
fn numbers_in(alloc: Global, text: &str) -> Result<Vec<u32>, AllocError> {
    let mut numbers = Vec::new(alloc);
    for word in text.split_whitespace() {
        numbers.push(number_of(word))?;
    }
    Ok(numbers)
}

/// The number at this place, or a large one where there is none.
fn at(numbers: &[u32], place: usize) -> u32 {
    match numbers.get(place) {
        Some(number) => *number,
        None => u32::MAX,
    }
}

/// What the word asks of the stacks.
fn told(
    alloc: Global,
    stacks: &mut Stacks,
    word: &str,
    numbers: &[u32],
) -> Result<String, AllocError> {
    match word {
        "node" => told_node(
            alloc,
            stacks,
            at(numbers, 0),
            at(numbers, 1),
            at(numbers, 2),
        ),
        "link" => told_link(
            alloc,
            stacks,
            at(numbers, 0),
            at(numbers, 1),
            at(numbers, 2),
        ),
        "paths" => told_paths(alloc, stacks, at(numbers, 0), at(numbers, 1), None),
        "through" => told_paths(
            alloc,
            stacks,
            at(numbers, 1),
            at(numbers, 2),
            numbers.get(0),
        ),
        _ => String::from_str(alloc, " no question"),
    }
}

/// The answer to the question.
///
/// - `new`: stacks of no nodes.
/// - `node RULE DOT AT`: the number of the node of the kernel with this one item at this place.
/// - `link UPPER SYMBOL LOWER`: the number of the link, and whether it is new.
/// - `paths NODE LENGTH`: how many paths of so many links there are down from the node, and each by its nodes.
/// - `through LINK NODE LENGTH`: the same of the paths through the link.
pub(crate) fn answer(alloc: Global, stacks: &mut Stacks, line: &str) -> Result<String, AllocError> {
    if line == "new" {
        *stacks = Stacks::new(alloc)?;
        return Ok(String::new(alloc));
    }
    let (word, rest) = match line.split_once(' ') {
        Some((word, rest)) => (word, rest),
        None => (line, ""),
    };
    let numbers = numbers_in(alloc, rest)?;
    told(alloc, stacks, word, &numbers)
}
