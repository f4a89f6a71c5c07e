//! A soak of the shared table: passes and an editor in threads of their own make thousands of versions, and then the
//! table is gathered and counted.
//!
//! A line `soak 16 4000` has sixteen passes and an editor that makes 4000 versions over a table of two versions, eight
//! places and eight rows. A line of `full` does the same over a table of the largest sizes. What is written are counts
//! that are the same whatever the schedule, so the output that is wanted was worked out from the definitions. Where
//! memory runs out, a line says so, and what it had is given back before the next one begins.
#![tactic(auto)]

mod asking;
mod editing;
mod filling;
mod keeping;
mod payload;
mod reading;
mod soaking;
mod together;
mod visiting;

use crate::asking::{Asked, asked_of};
use std::alloc::AllocError;
use std::io;
use std::thread::Threads;

/// What a line is answered.
fn told_line<R: Threads + Sync>(
    rt: &HostRuntime,
    threads: &R,
    line: &str,
) -> Result<String, AllocError> {
    let Some(asked) = asked_of(line) else {
        return String::from_str(rt.alloc(), "no soak");
    };
    soaking::told_soak(threads, rt.alloc(), asked)
}

/// Writes each of the lines with its answer.
fn tell_all<R: Threads + Sync>(rt: &HostRuntime, threads: &R, lines: &str) -> io::Result<()> {
    for line in lines.lines() {
        match told_line(rt, threads, line) {
            Ok(told) => println!(rt; "{line} => {told}")?,
            Err(_) => println!(rt; "{line} => memory ran out")?,
        }
    }
    Ok(())
}

fn main(rt: HostRuntime) -> io::Result<()> {
    let lines = io::read_to_string(rt.alloc(), rt.stdin())?;
    tell_all(&rt, &rt, &lines)
}
