//! Commands over one table by hand: writes each row of the input again with its answer.
//!
//! A row is a line of a script, whose command runs over the table that the rows before it left, or a word for what a
//! user with a pin does there; `rows` has the words. Told are the reply, the counts of what was asked, found, made and
//! dropped, and what is left. The output that is wanted was worked out from the definitions.
#![tactic(auto)]

mod commands;
mod graphs;
mod lines;
mod replicas;
mod rows;
mod table;
mod telling;

use rows::answer;
use std::io;
use table::Table;

/// Writes each of the rows with its answer, over this table.
fn answer_over(rt: &HostRuntime, table: &mut Table, rows: &str) -> io::Result<()> {
    for row in rows.lines() {
        let answer = answer(rt.alloc(), table, row)?;
        println!(rt; "{row} => {answer}")?;
    }
    Ok(())
}

/// Writes each of the rows with its answer.
fn answer_all(rt: &HostRuntime, rows: &str) -> io::Result<()> {
    let mut table = Table::new(rt.alloc())?;
    answer_over(rt, &mut table, rows)
}

fn main(rt: HostRuntime) -> io::Result<()> {
    let rows = io::read_to_string(rt.alloc(), rt.stdin())?;
    answer_all(&rt, &rows)
}
