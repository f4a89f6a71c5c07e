//! Rows that edits leave: asks each question of the input, and writes it again with the answer.
//!
//! A line of the input is `new`, or `edit` and an edit. Of each edit it is told how many rows that are reached in
//! the grammar are kept and refused. A row is to be kept exactly where what is computed anew for its key in the
//! next grammar is the same; a row that is not is told as wrong. The output that is wanted was worked out from the
//! definitions.
#![tactic(auto)]

mod answers;
mod item_rows;
mod judging;
mod rows;
mod scan_rows;

use judging::{Grammars, answer};
use std::io;

/// Writes the question with its answer.
fn answer_one(rt: &HostRuntime, grammars: &mut Grammars, question: &str) -> io::Result<()> {
    let answer = answer(rt.alloc(), grammars, question)?;
    println!(rt; "{question} =>{answer}")
}

/// Writes each of the questions with its answer.
fn answer_all(rt: &HostRuntime, grammars: &mut Grammars, questions: &str) -> io::Result<()> {
    for question in questions.lines() {
        answer_one(rt, grammars, question)?;
    }
    Ok(())
}

/// Begins with an empty grammar.
fn start(rt: &HostRuntime, questions: &str) -> io::Result<()> {
    let mut grammars = Grammars::empty(rt.alloc())?;
    answer_all(rt, &mut grammars, questions)
}

fn main(rt: HostRuntime) -> io::Result<()> {
    let questions = io::read_to_string(rt.alloc(), rt.stdin())?;
    start(&rt, &questions)
}
