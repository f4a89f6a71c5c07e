//! Rows of the table in words, row by row of the input: writes each again with the words, or with what they are.
//!
//! The rows are those of a small grammar. It has rule 1 `START ::= E`, rule 2 `E ::= E "+" E` and rule 3
//! `E ::= "a"`, with the numbers 1 for `E`, 2 for `"+"` and 3 for `"a"`. The output that is wanted was worked out
//! from the definitions.
#![tactic(auto)]

mod asking;
mod words;

use asking::answer;
use std::io;

/// Writes each of the questions with its answer.
fn answer_all(rt: &HostRuntime, questions: &str) -> io::Result<()> {
    for question in questions.lines() {
        let answer = answer(rt.alloc(), question)?;
        println!(rt; "{question} =>{answer}")?;
    }
    Ok(())
}

fn main(rt: HostRuntime) -> io::Result<()> {
    let questions = io::read_to_string(rt.alloc(), rt.stdin())?;
    answer_all(&rt, &questions)
}
