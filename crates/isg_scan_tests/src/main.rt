//! Scans by hand: asks each question of the input, and writes it again with the answer.
//!
//! A line of the input is a word and what stands behind it; `asking` has the words. Each text is scanned twice
//! over one graph, which then was asked for all states before. `keys` tells the states that one scan asks for,
//! and `items` and `states` what a graph answers for a key, asked twice. The output that is wanted was worked out
//! from the definitions.
#![tactic(auto)]

mod asking;
mod items;
mod keys;
mod recorder;
mod scans;
mod states;
mod telling;

use asking::answer;
use edit_log::Grammar;
use std::io;

/// Writes each of the questions with its answer.
fn answer_all(rt: &HostRuntime, questions: &str) -> io::Result<()> {
    let mut grammar = Grammar::empty(rt.alloc())?;
    for question in questions.lines() {
        let answer = answer(rt.alloc(), &mut grammar, question)?;
        println!(rt; "{question} =>{answer}")?;
    }
    Ok(())
}

fn main(rt: HostRuntime) -> io::Result<()> {
    let questions = io::read_to_string(rt.alloc(), rt.stdin())?;
    answer_all(&rt, &questions)
}
