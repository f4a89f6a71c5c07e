//! What is read of scripts: their commands, or the first bad line.

use crate::signs::{script_of, signs_of_bytes};
use grammar_text::write_edit;
use script_text::{
    BadKind, BadScript, Block, Command, SCRIPT_LIMIT, Script, ScriptError, read_script,
};
use std::alloc::{AllocError, Global};

/// The kind of a bad line by its name.
fn name_of(kind: BadKind) -> &'static str {
    match kind {
        BadKind::UnknownCommand => "UnknownCommand",
        BadKind::BadEdit => "BadEdit",
        BadKind::BadRegex => "BadRegex",
        BadKind::BadText => "BadText",
        BadKind::TextTooLong => "TextTooLong",
        BadKind::UnclosedPar => "UnclosedPar",
        BadKind::StrayEnd => "StrayEnd",
        BadKind::ParInPar => "ParInPar",
        BadKind::TooManyCommands => "TooManyCommands",
        BadKind::SectionTooLong => "SectionTooLong",
        BadKind::StatsAfterPar => "StatsAfterPar",
    }
}

/// The number of the first bad line with what is wrong with it.
fn refused(alloc: Global, error: &ScriptError) -> Result<String, AllocError> {
    match error {
        ScriptError::Bad(BadScript { line, kind }) => {
            format!(in alloc; "line {line} {}", name_of(*kind))
        }
        ScriptError::NoMemory => Err(AllocError),
    }
}

/// Appends the command: an edit as it is written, and a text as it is, behind the command's word.
fn show(alloc: Global, block: &Block, out: &mut Vec<u8>) -> Result<(), AllocError> {
    match block {
        Block::Alone(Command::Edit(edit)) => {
            let text = write_edit(alloc, edit)?;
            out.extend_from_slice(&text)
        }
        Block::Alone(Command::Parse(text)) => {
            out.extend_from_slice(b"parse:")?;
            out.extend_from_slice(text.bytes())
        }
        Block::Alone(Command::Tokens(text)) => {
            out.extend_from_slice(b"tokens:")?;
            out.extend_from_slice(text.bytes())
        }
        Block::Alone(Command::Stats) => out.extend_from_slice(b"stats"),
        _ => out.extend_from_slice(b"another command"),
    }
}

/// The commands, each with a bar behind it.
fn shown(alloc: Global, script: &Script) -> Result<String, AllocError> {
    let mut out = Vec::new(alloc);
    for block in script.blocks.as_slice() {
        show(alloc, block, &mut out)?;
        out.push(b'|')?;
    }
    signs_of_bytes(alloc, &out)
}

/// The commands of the script of a row, or the first bad line.
pub(crate) fn told_script(alloc: Global, row: &str) -> Result<String, AllocError> {
    let script = script_of(alloc, row)?;
    if script.len() > SCRIPT_LIMIT {
        return String::from_str(alloc, "too long to be read");
    }
    match read_script(alloc, &script) {
        Ok(read) => shown(alloc, &read),
        Err(error) => refused(alloc, &error),
    }
}

/// The front, as many times the part, and the end.
fn long(
    alloc: Global,
    count: u32,
    front: &str,
    part: &str,
    end: &str,
) -> Result<Vec<u8>, AllocError> {
    let mut script = script_of(alloc, front)?;
    let part = script_of(alloc, part)?;
    for _ in 0..count {
        script.extend_from_slice(&part)?;
    }
    script.extend_from_slice(&script_of(alloc, end)?)?;
    Ok(script)
}

/// The script of a row `COUNT;FRONT;PART;END`, or nothing where the row is none.
fn long_of(alloc: Global, row: &str) -> Result<Option<Vec<u8>>, AllocError> {
    let mut parts = row.split(';');
    let count = parts.next().unwrap_or("").parse::<u32>();
    let front = parts.next().unwrap_or("");
    let part = parts.next().unwrap_or("");
    let end = parts.next().unwrap_or("");
    match count {
        Ok(count) => Ok(Some(long(alloc, count, front, part, end)?)),
        Err(_) => Ok(None),
    }
}

/// Whether the script is good, or its first bad line.
fn told_first_bad(alloc: Global, script: &[u8]) -> Result<String, AllocError> {
    if script.len() > SCRIPT_LIMIT {
        return String::from_str(alloc, "too long to be read");
    }
    match read_script(alloc, script) {
        Ok(_) => String::from_str(alloc, "good"),
        Err(error) => refused(alloc, &error),
    }
}

/// How long the script of the row is, and whether it is good, or its first bad line.
pub(crate) fn told_long(alloc: Global, row: &str) -> Result<String, AllocError> {
    match long_of(alloc, row)? {
        Some(script) => {
            let told = told_first_bad(alloc, &script)?;
            format!(in alloc; "{} bytes, {told}", script.len())
        }
        None => String::from_str(alloc, "no count"),
    }
}
