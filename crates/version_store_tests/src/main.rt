//! Passes and an editor of one table, story by story of the input: writes each line again with what its commands
//! answer.
//!
//! A line has the sizes of the table that are not the largest, how many passes there are, and commands, with a
//! semicolon between two. A line of `threads` or of `soak` has passes and an editor work at the same time, one of
//! `alone` has a bench that was gathered make some versions, and one of `counts` has a new bench with a log of this
//! size make so many. A line of `lone` has a new bench with so many rows pin its version, and look for and publish so
//! many keys. The output that is wanted was worked out from the definitions.
#![tactic(auto)]

mod alone;
mod commands;
mod keep_even;
mod lone;
mod sizes;
mod story;
mod working;

use crate::sizes::number;
use std::io;
use std::thread::Threads;

/// What a line is answered.
fn told_line<R: Threads + Sync>(rt: &HostRuntime, threads: &R, line: &str) -> io::Result<String> {
    if let Some(count) = line.strip_prefix("threads ") {
        return Ok(working::told_together(threads, rt.alloc(), count)?);
    }
    if let Some(count) = line.strip_prefix("soak ") {
        return Ok(working::told_soak(threads, rt.alloc(), count)?);
    }
    if let Some(counts) = line.strip_prefix("counts ") {
        let (log, edits) = counts.split_once(' ').unwrap_or((counts, "1"));
        return Ok(alone::told_counts(rt.alloc(), number(log), number(edits))?);
    }
    if let Some(counts) = line.strip_prefix("lone ") {
        let (rows, keys) = counts.split_once(' ').unwrap_or((counts, "1"));
        return Ok(lone::told_lone(rt.alloc(), number(rows), number(keys))?);
    }
    if let Some(edits) = line.strip_prefix("alone ") {
        return Ok(alone::told_alone(rt.alloc(), number(edits))?);
    }
    Ok(story::told(rt.alloc(), line)?)
}

/// Writes each of the lines with its answers.
fn tell_all<R: Threads + Sync>(rt: &HostRuntime, threads: &R, lines: &str) -> io::Result<()> {
    for line in lines.lines() {
        let told = told_line(rt, threads, line)?;
        println!(rt; "{line} =>{told}")?;
    }
    Ok(())
}

fn main(rt: HostRuntime) -> io::Result<()> {
    let lines = io::read_to_string(rt.alloc(), rt.stdin())?;
    tell_all(&rt, &rt, &lines)
}
