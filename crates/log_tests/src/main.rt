//! Histories by hand: asks a grammar each question of the input, and writes it again with the answer.
//!
//! A line of the input is a word and what stands behind it. `new` begins with an empty grammar; `asking` has the
//! other words. The output that is wanted was worked out from the definitions.
#![tactic(auto)]

mod answers;
mod asking;
mod lookups;
mod plain_scanner;
mod telling;
mod touches;
mod verdicts;

use asking::answer;
use edit_log::Grammar;
use std::io;

/// Writes the question with its answer.
fn answer_one(rt: &HostRuntime, grammar: &mut Grammar, question: &str) -> io::Result<()> {
    let answer = answer(rt.alloc(), grammar, question)?;
    println!(rt; "{question} =>{answer}")
}

/// Writes each of the questions with its answer.
fn answer_all(rt: &HostRuntime, grammar: &mut Grammar, questions: &str) -> io::Result<()> {
    for question in questions.lines() {
        answer_one(rt, grammar, question)?;
    }
    Ok(())
}

/// Begins with an empty grammar.
fn start(rt: &HostRuntime, questions: &str) -> io::Result<()> {
    let mut grammar = Grammar::empty(rt.alloc())?;
    answer_all(rt, &mut grammar, questions)
}

fn main(rt: HostRuntime) -> io::Result<()> {
    let questions = io::read_to_string(rt.alloc(), rt.stdin())?;
    start(&rt, &questions)
}
