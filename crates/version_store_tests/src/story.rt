//! A table with its editor and its passes, and what befalls them.

use crate::commands::{told_edit, told_entry, told_find, told_publish};
use crate::sizes::{Wanted, bounded, number};
use pin_rule::content::AnyRow;
use slot_store::page::Page;
use slot_store::pass::Pass;
use slot_store::pinned::Pinned;
use std::alloc::{AllocError, Global};
use version_store::bench::Bench;
use version_store::editor::Editor;

/// A pass, with a pin or without one.
#[derive(Drop)]
enum User {
    Between(Pass<AnyRow>),
    At(Pinned<AnyRow>),
}

fn users_of(alloc: Global, passes: Vec<Pass<AnyRow>>) -> Result<Vec<Option<User>>, AllocError> {
    let mut users = Vec::new(alloc);
    for pass in passes {
        users.push(Some(User::Between(pass)))?;
    }
    Ok(users)
}

fn told_pin(alloc: Global, user: User) -> Result<(User, String), AllocError> {
    let User::Between(pass) = user else {
        return Ok((user, String::from_str(alloc, "pinned before")?));
    };
    match pass.pin() {
        Ok(pinned) => {
            let told = format!(in alloc; "pinned {}", pinned.version())?;
            Ok((User::At(pinned), told))
        }
        Err((pass, _)) => {
            let told = format!(in alloc; "spent {}", pass.front())?;
            Ok((User::Between(pass), told))
        }
    }
}

fn told_unpin(alloc: Global, user: User) -> Result<(User, String), AllocError> {
    let User::At(pinned) = user else {
        return Ok((user, String::from_str(alloc, "no pin")?));
    };
    let pass = pinned.unpin();
    let told = format!(in alloc; "front {} left {}", pass.front(), pass.pins_left())?;
    Ok((User::Between(pass), told))
}

/// What a command of a user with a pin answers.
fn told_at(
    alloc: Global,
    pinned: &mut Pinned<AnyRow>,
    command: &str,
    words: &[u64],
) -> Result<String, AllocError> {
    if words.is_empty() {
        return String::from_str(alloc, "no number");
    }
    match command {
        "find" => told_find(alloc, pinned, words[0]),
        "publish" => String::from_str(alloc, told_publish(pinned, words[0], &words[1..])),
        _ => told_entry(alloc, pinned, words[0].min(u32::MAX as u64) as u32),
    }
}

fn told_user(
    alloc: Global,
    user: User,
    command: &str,
    words: &[u64],
) -> Result<(User, String), AllocError> {
    match command {
        "pin" => told_pin(alloc, user),
        "unpin" => told_unpin(alloc, user),
        _ => match user {
            User::At(mut pinned) => {
                let told = told_at(alloc, &mut pinned, command, words)?;
                Ok((User::At(pinned), told))
            }
            User::Between(pass) => Ok((User::Between(pass), String::from_str(alloc, "no pin")?)),
        },
    }
}

/// The numbers of a command.
fn words_in(alloc: Global, text: &str) -> Result<Vec<u64>, AllocError> {
    let mut words = Vec::new(alloc);
    for word in text.split_whitespace() {
        words.push(number(word))?;
    }
    Ok(words)
}

/// A command of the user of this number, as in `find 1 9`.
fn told_of_user(
    alloc: Global,
    users: &mut Vec<Option<User>>,
    command: &str,
    rest: &str,
) -> Result<String, AllocError> {
    let words = words_in(alloc, rest)?;
    if words.is_empty() {
        return String::from_str(alloc, "no user");
    }
    let at = words[0] as usize;
    if at == 0 || at > users.len() {
        return String::from_str(alloc, "no user");
    }
    let Some(user) = users[at - 1].take() else {
        return String::from_str(alloc, "gone");
    };
    let (user, told) = told_user(alloc, user, command, &words[1..])?;
    users[at - 1] = Some(user);
    Ok(told)
}

/// A command of the editor or of a user.
fn told_command(
    alloc: Global,
    editor: &mut Editor<AnyRow>,
    users: &mut Vec<Option<User>>,
    line: &str,
) -> Result<String, AllocError> {
    let line = line.trim();
    let (command, rest) = match line.split_once(' ') {
        Some((command, rest)) => (command, rest),
        None => (line, ""),
    };
    match command {
        "keep" => {
            let (which, first) = rest.split_once(' ').unwrap_or((rest, ""));
            told_edit(alloc, editor, which, number(first))
        }
        "give" => format!(in alloc; "gave up {}", editor.give_up()),
        "live" => format!(in alloc; "live {} of version {}", editor.live(), editor.version()),
        _ => told_of_user(alloc, users, command, rest),
    }
}

/// The table is parted, and the commands are obeyed one after the other.
fn told_all(
    alloc: Global,
    bench: Bench<AnyRow>,
    passes: u64,
    commands: &str,
) -> Result<String, AllocError> {
    let (editor, passes) = match bench.part(bounded(passes, 1, 16)) {
        Ok(parts) => parts,
        Err((_, error)) => return Err(error),
    };
    let mut editor = editor;
    let mut users = users_of(alloc, passes)?;
    let mut told = String::new(alloc);
    for command in commands.split(';') {
        let answer = told_command(alloc, &mut editor, &mut users, command)?;
        told.push_str(&format!(in alloc; " {answer};")?)?;
    }
    Ok(told)
}

/// What the commands of a line answer.
pub(crate) fn told(alloc: Global, line: &str) -> Result<String, AllocError> {
    let (head, commands) = line.split_once(':').unwrap_or((line, ""));
    let wanted = Wanted::read(head);
    let bench = Bench::make(alloc, wanted.sizes())?;
    told_all(alloc, bench, wanted.passes, commands)
}
