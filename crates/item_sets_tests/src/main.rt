//! Expands every kernel that the start kernels of some grammars lead to, and beside each searches plainly for
//! what its expansion must be.
//!
//! Standard input has the grammars, each as the lines of its edits, with an empty line between two. For each
//! a line tells the expansion of its start kernel, and how many kernels, moves, reductions and items of
//! closures there were; or at which kernel the two ways differ.
#![tactic(auto)]

mod comparing;
mod grammars;
mod plain_search;
mod telling;

use std::io;

fn main(rt: HostRuntime) -> io::Result<()> {
    let text = io::read_to_string(rt.alloc(), rt.stdin())?;
    for edits in text.split("\n\n") {
        match comparing::line_of(rt.alloc(), edits) {
            Ok(line) => println!(rt; "{line}")?,
            Err(_) => println!(rt; "no grammar: {edits}")?,
        }
    }
    Ok(())
}
