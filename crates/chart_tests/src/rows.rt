//! The words of rows.

use crate::cases::{Case, case_of};
use crate::forests::{told_agreement, told_chart, told_sizes};
use crate::nodes::{told_count, told_node};
use std::alloc::{AllocError, Global};

fn answer_case(alloc: Global, word: &str, case: &Case) -> Result<String, AllocError> {
    match word {
        "chart" => told_chart(alloc, case),
        "sizes" => told_sizes(alloc, case),
        "search" => told_agreement(alloc, case),
        _ => String::from_str(alloc, "no word of a row"),
    }
}

fn answer_known(alloc: Global, word: &str, rest: &str) -> Result<String, AllocError> {
    match case_of(alloc, rest)? {
        Some(case) => answer_case(alloc, word, &case),
        None => String::from_str(alloc, "no case"),
    }
}

/// The answer to the row.
///
/// - `chart RULES/TOKENS`: the forest that the chart gives, or why it gives none.
/// - `sizes RULES/TOKENS`: how many nodes and splits that forest has.
/// - `search RULES/TOKENS`: whether a search over all cuts finds the same.
/// - `node SYMBOL FROM TO`: how many splits the node of the span has in a forest that is made by hand.
/// - `splits`: how many splits that forest has.
pub(crate) fn answer(alloc: Global, row: &str) -> Result<String, AllocError> {
    let (word, rest) = match row.split_once(' ') {
        Some((word, rest)) => (word, rest),
        None => (row, ""),
    };
    match word {
        "node" => told_node(alloc, rest),
        "splits" => told_count(alloc),
        _ => answer_known(alloc, word, rest),
    }
}
