//! Packed spans, row by row: writes each row of the input again with the forest that its spans make.
//!
//! `rows` says how a row is written. The output that is wanted was worked out from the definitions.
#![tactic(auto)]

mod different;
mod rows;
mod told;

use rows::answer;
use std::io;

/// Writes each of the rows with its answer.
fn answer_all(rt: &HostRuntime, rows: &str) -> io::Result<()> {
    for row in rows.lines() {
        let answer = answer(rt.alloc(), row)?;
        println!(rt; "{row} => {answer}")?;
    }
    Ok(())
}

fn main(rt: HostRuntime) -> io::Result<()> {
    let rows = io::read_to_string(rt.alloc(), rt.stdin())?;
    answer_all(&rt, &rows)
}
