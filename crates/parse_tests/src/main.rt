//! Parses beside the chart, row by row: writes each row of the input again with what the parser gives, and whether the
//! chart gives the same.
//!
//! `rows` has the words of rows, and `grammars` says how rules are written. The counts that are wanted were worked out
//! from the definitions.
#![tactic(auto)]

mod answers;
mod asks;
mod comparing;
mod counter;
mod draws;
mod families;
mod grammars;
mod rows;
mod texts;

use rows::answer;
use std::io;

/// Writes each of the rows with its answer.
fn answer_all(rt: &HostRuntime, rows: &str) -> io::Result<()> {
    for row in rows.lines() {
        let answer = answer(rt.alloc(), row)?;
        println!(rt; "{row} => {answer}")?;
    }
    Ok(())
}

fn main(rt: HostRuntime) -> io::Result<()> {
    let rows = io::read_to_string(rt.alloc(), rt.stdin())?;
    answer_all(&rt, &rows)
}
