//! Stacks, command by command of the input: writes each again with what it gives.
//!
//! The output that is wanted was worked out from the definitions.
#![tactic(auto)]

mod asking;
mod telling;

use asking::answer;
use gss::Stacks;
use std::io;

/// Writes each of the questions with its answer.
fn answer_all(rt: &HostRuntime, questions: &str) -> io::Result<()> {
    let mut stacks = Stacks::new(rt.alloc())?;
    for question in questions.lines() {
        let answer = answer(rt.alloc(), &mut stacks, question)?;
        println!(rt; "{question} =>{answer}")?;
    }
    Ok(())
}

fn main(rt: HostRuntime) -> io::Result<()> {
    let questions = io::read_to_string(rt.alloc(), rt.stdin())?;
    answer_all(&rt, &questions)
}
