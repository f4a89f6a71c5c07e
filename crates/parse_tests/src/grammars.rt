//! Grammars, by their rules in short.

ghost use Rattle.std.specs.Prelude.{◌≡◌, ◌==◌, not, IfOk};
ghost use Rattle.std.specs.List.{list_all};
ghost use Rattle.grammar_text.specs.Limits.{IsSound};
ghost use Rattle.edit_log.specs.Verdict.{IsProper};

use edit_log::{Grammar, Refusal, may};
use grammar_text::{BadEdit, EDIT_LIMIT, Edit, read_edit};
use std::alloc::{AllocError, Global};

/// Adds the symbol that a letter stands for: `S` is START, each other capital is a name, and a small letter is itself.
fn add_symbol(line: &mut String, letter: char) -> Result<(), AllocError> {
    line.push_str(" ")?;
    if letter == 'S' {
        return line.push_str("START");
    }
    if letter.is_ascii_uppercase() {
        return line.push(letter);
    }
    line.push_str("\"")?;
    line.push(letter)?;
    line.push_str("\"")
}

/// The line that adds a rule as `A=Ab`: the letter of its left side, and those of its right side.
fn line_of(alloc: Global, rule: &str) -> Result<String, AllocError> {
    let (left, right) = match rule.split_once('=') {
        Some((left, right)) => (left, right),
        None => (rule, ""),
    };
    let mut line = String::from_str(alloc, "rule")?;
    for letter in left.chars() {
        add_symbol(&mut line, letter)?;
    }
    line.push_str(" ::=")?;
    for letter in right.chars() {
        add_symbol(&mut line, letter)?;
    }
    Ok(line)
}

fn is_line(bytes: &[u8]) -> bool
    ensures { result ≡ list_all (λ byte. not (byte == 10)) bytes.now }
{
    bytes.iter().all(|byte| *byte != b'\n')
}

/// The edit of a line.
fn read(alloc: Global, line: &str) -> Result<Edit, BadEdit>
    ensures { IfOk result IsSound }
{
    let bytes = line.as_bytes();
    if bytes.len() > EDIT_LIMIT {
        return Err(BadEdit::NoMemory);
    }
    if !is_line(bytes) {
        return Err(BadEdit::NoMemory);
    }
    read_edit(alloc, bytes)
}

fn take(alloc: Global, grammar: &mut Grammar, edit: &Edit) -> Result<(), Refusal>
    requires { IsProper edit.now }
{
    let entry = may(alloc, grammar, edit)?;
    let ready = grammar.prepare(&entry)?;
    grammar.apply(ready);
    Ok(())
}

/// Adds the rule of a line.
fn take_line(alloc: Global, grammar: &mut Grammar, line: &str) -> Result<(), Refusal> {
    let Ok(edit) = read(alloc, line) else {
        return Err(Refusal::NoMemory);
    };
    match &edit {
        Edit::AddRule(_) => take(alloc, grammar, &edit),
        _ => Err(Refusal::NoSuch),
    }
}

/// Adds a rule, unless it is there already.
fn add_rule(alloc: Global, grammar: &mut Grammar, rule: &str) -> Result<(), AllocError> {
    let line = line_of(alloc, rule)?;
    match take_line(alloc, grammar, line.as_str()) {
        Ok(()) => Ok(()),
        Err(Refusal::Exists { .. }) => Ok(()),
        Err(_) => Err(AllocError),
    }
}

/// The grammar of these rules, which blanks part.
pub(crate) fn grammar_of(alloc: Global, rules: &str) -> Result<Grammar, AllocError> {
    let mut grammar = Grammar::empty(alloc)?;
    for rule in rules.split_whitespace() {
        add_rule(alloc, &mut grammar, rule)?;
    }
    Ok(grammar)
}
