//! The top call, row by row: writes each row of the input again with how the run ends and what it writes.
//!
//! Runs are over sources and sinks in memory, which are tried alone too. A row is a word and what stands behind it;
//! `rows` has the words. In rows and answers a bar ends a line, and `␉` in a script is a tab. The output that is
//! wanted was worked out from the definitions.
#![tactic(auto)]

mod benches;
mod faults;
mod rows;
mod runs;
mod scripts;
mod sinks;
mod sources;

use rows::answer;
use std::io;

/// Writes each of the rows with its answer.
fn answer_all(rt: &HostRuntime, rows: &str) -> io::Result<()> {
    for row in rows.lines() {
        let answer = answer(rt.alloc(), row)?;
        println!(rt; "{row} => {answer}")?;
    }
    Ok(())
}

fn main(rt: HostRuntime) -> io::Result<()> {
    let rows = io::read_to_string(rt.alloc(), rt.stdin())?;
    answer_all(&rt, &rows)
}
