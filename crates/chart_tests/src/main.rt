//! Forests, row by row: writes each row of the input again with what the chart gives, or with what a forest has.
//!
//! A row is a word, and mostly rules and the kinds of tokens behind it; `rows` has the words, and `cases` says how
//! rules are written. The output that is wanted was worked out from the definitions.
#![tactic(auto)]

mod cases;
mod forests;
mod nodes;
mod rows;
mod search;

use rows::answer;
use std::io;

/// Writes each of the rows with its answer.
fn answer_all(rt: &HostRuntime, rows: &str) -> io::Result<()> {
    for row in rows.lines() {
        let answer = answer(rt.alloc(), row)?;
        println!(rt; "{row} => {answer}")?;
    }
    Ok(())
}

fn main(rt: HostRuntime) -> io::Result<()> {
    let rows = io::read_to_string(rt.alloc(), rt.stdin())?;
    answer_all(&rt, &rows)
}
