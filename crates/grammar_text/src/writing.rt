//! Writing an edit: one walk over it, whatever takes its bytes.

ghost use Rattle.std.specs.Prelude.{◌≡◌, ◌<◌, ◌^◌, length, OnOk, IfOk};
ghost use Rattle.std.specs.List.{fold, flat_map};
ghost use Rattle.grammar_text.specs.Canonical.{escaped, symbol_text, spaced, symbols_text, rule_text, definition_text, canonical};

use crate::NoMemory;
use crate::edit::{DefText, Edit, RuleText};
use crate::output::{Length, Output};
use crate::symbol::Symbol;
use crate::text::Text;
use std::alloc::Global;

fn put_all<O: Output>(out: &mut O, bytes: &[u8]) -> Result<(), O::Error>
    ensures { OnOk result (out.new ≡ fold O.after out.old bytes.now) }
{
    for byte in bytes {
        out.put(*byte)?;
    }
    Ok(())
}

fn put_escaped<O: Output>(out: &mut O, byte: u8) -> Result<(), O::Error>
    ensures { OnOk result (out.new ≡ fold O.after out.old (escaped byte)) }
{
    match byte {
        b'"' => put_all(out, b"\\\""),
        b'\\' => put_all(out, b"\\\\"),
        b'\n' => put_all(out, b"\\n"),
        b'\t' => put_all(out, b"\\t"),
        _ => out.put(byte),
    }
}

fn put_all_escaped<O: Output>(out: &mut O, bytes: &[u8]) -> Result<(), O::Error>
    ensures { OnOk result (out.new ≡ fold O.after out.old (flat_map escaped bytes.now)) }
{
    for byte in bytes {
        put_escaped(out, *byte)?;
    }
    Ok(())
}

/// Writes a space and the piece.
fn put_spaced<O: Output>(out: &mut O, piece: &[u8]) -> Result<(), O::Error>
    ensures { OnOk result (out.new ≡ fold O.after out.old (spaced piece.now)) }
{
    out.put(b' ')?;
    put_all(out, piece)
}

/// Writes a space and the symbol.
fn put_symbol<O: Output>(out: &mut O, symbol: &Symbol) -> Result<(), O::Error>
    ensures { OnOk result (out.new ≡ fold O.after out.old (spaced (symbol_text symbol.now))) }
{
    match symbol {
        Symbol::Named(name) => put_spaced(out, name.bytes()),
        Symbol::Literal(text) => {
            put_all(out, b" \"")?;
            put_all_escaped(out, text.bytes())?;
            out.put(b'"')
        }
    }
}

fn put_symbols<O: Output>(out: &mut O, symbols: &[Symbol]) -> Result<(), O::Error>
    ensures { OnOk result (out.new ≡ fold O.after out.old (symbols_text symbols.now)) }
{
    for symbol in symbols {
        put_symbol(out, symbol)?;
    }
    Ok(())
}

fn put_rule<O: Output>(out: &mut O, rule: &RuleText) -> Result<(), O::Error>
    ensures { OnOk result (out.new ≡ fold O.after out.old (rule_text rule.now)) }
{
    put_spaced(out, rule.left.bytes())?;
    put_spaced(out, b"::=")?;
    put_symbols(out, rule.right.as_slice())
}

fn put_definition<O: Output>(out: &mut O, definition: &DefText) -> Result<(), O::Error>
    ensures { OnOk result (out.new ≡ fold O.after out.old (definition_text definition.now)) }
{
    put_spaced(out, definition.name.bytes())?;
    put_spaced(out, b"=")?;
    put_spaced(out, definition.expression.bytes())
}

/// Writes the edit's canonical text: one space between its pieces and none at its ends, and in literals a
/// quote, a backslash, a line's end and a tab by their escapes. An expression stands as it is.
#[tactic(auto, unfolding(crate::specs::Canonical::canonical))]
pub fn put_edit<O: Output>(out: &mut O, edit: &Edit) -> Result<(), O::Error>
    ensures { OnOk result (out.new ≡ fold O.after out.old (canonical edit.now)) }
{
    match edit {
        Edit::AddRule(rule) => {
            put_all(out, b"rule")?;
            put_rule(out, rule)
        }
        Edit::DropRule(rule) => {
            put_all(out, b"drop rule")?;
            put_rule(out, rule)
        }
        Edit::AddToken(definition) => {
            put_all(out, b"token")?;
            put_definition(out, definition)
        }
        Edit::DropToken(name) => {
            put_all(out, b"drop token")?;
            put_spaced(out, name.bytes())
        }
        Edit::AddSkip(definition) => {
            put_all(out, b"skip")?;
            put_definition(out, definition)
        }
        Edit::DropSkip(name) => {
            put_all(out, b"drop skip")?;
            put_spaced(out, name.bytes())
        }
    }
}

/// The canonical text of the edit, as [`put_edit`] writes it.
pub fn write_edit(alloc: Global, edit: &Edit) -> Result<Vec<u8>, NoMemory>
    ensures { IfOk result (λ text. text.items ≡ canonical edit.now) }
{
    let mut text = Text::from_vec(Vec::new(alloc));
    put_edit(&mut text, edit)?;
    Ok(text.into_vec())
}

/// The length of the edit's canonical text. Takes no memory.
pub fn written_len(edit: &Edit) -> usize
    requires { length (canonical edit.now) < 2 ^ 32 }
    ensures { result ≡ length (canonical edit.now) }
{
    let mut length = Length { bytes: 0 };
    let Ok(()) = put_edit(&mut length, edit);
    length.bytes
}
