//! The readers of texts and the entries of the log, row by row: writes each row of the input again with what is
//! read of it.
//!
//! A row is a word and what stands behind it; `rows` has the words, and `signs` says what stands for bytes that
//! cannot be seen. The output that is wanted was worked out from the definitions.
#![tactic(auto)]

mod edits;
mod entries;
mod expressions;
mod positions;
mod rows;
mod scripts;
mod signs;

use rows::answer;
use signs::text_of;
use std::io;

/// Writes each of the rows with its answer.
fn answer_all(rt: &HostRuntime, rows: &str) -> io::Result<()> {
    for row in rows.lines() {
        let text = text_of(rt.alloc(), row)?;
        let answer = answer(rt.alloc(), &text)?;
        println!(rt; "{row} => {answer}")?;
    }
    Ok(())
}

fn main(rt: HostRuntime) -> io::Result<()> {
    let rows = io::read_to_string(rt.alloc(), rt.stdin())?;
    answer_all(&rt, &rows)
}
