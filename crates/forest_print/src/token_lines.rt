//! The lines of tokens.

ghost use Rattle.std.specs.Prelude.{◌≡◌, ◌<◌, ◌++◌, length, Contains, OnOk, OnErr};
ghost use Rattle.std.specs.List.{flat_map};
ghost use Rattle.grammar_text.specs.Canonical.{escaped, symbol_text};
ghost use Rattle.forest.specs.declared.symbols.Token.{Token as TheToken};
ghost use Rattle.forest_print.specs.Lines.{token_line, tokens_text};
ghost use Rattle.forest_print.specs.Parts.{literal_text};
ghost use Rattle.forest_print.specs.Prefixes.{AppendsPrefix};

use crate::NoMemory;
use crate::line_parts::{Part, put_parts};
use crate::symbols::symbol;
use edit_log::Grammar;
use forest::Token;
use grammar_text::Symbol;

/// Appends a byte of a literal, or nothing.
fn put_escaped(out: &mut Vec<u8>, byte: u8) -> Result<(), NoMemory>
    ensures whole { OnOk result (out.new.items ≡ out.old.items ++ escaped byte) }
    ensures kept { OnErr result (out.new.items ≡ out.old.items) }
{
    match byte {
        b'"' => out.extend_from_slice(b"\\\""),
        b'\\' => out.extend_from_slice(b"\\\\"),
        b'\n' => out.extend_from_slice(b"\\n"),
        b'\t' => out.extend_from_slice(b"\\t"),
        _ => out.extend_from_slice(&[byte]),
    }
}

/// Appends the bytes of a literal.
fn put_all_escaped(out: &mut Vec<u8>, bytes: &[u8]) -> Result<(), NoMemory>
    ensures whole { OnOk result (out.new.items ≡ out.old.items ++ flat_map escaped bytes.now) }
    ensures prefix { OnErr result (AppendsPrefix out.old.items out.new.items (flat_map escaped bytes.now)) }
{
    for byte in bytes {
        put_escaped(out, *byte)?;
    }
    Ok(())
}

/// Appends a literal with its quotes and escapes.
fn put_literal(out: &mut Vec<u8>, bytes: &[u8]) -> Result<(), NoMemory>
    ensures whole { OnOk result (out.new.items ≡ out.old.items ++ literal_text bytes.now) }
    ensures prefix { OnErr result (AppendsPrefix out.old.items out.new.items (literal_text bytes.now)) }
{
    put_parts(out, &[Part::Bytes(b"\"")])?;
    put_all_escaped(out, bytes)?;
    put_parts(out, &[Part::Bytes(b"\"")])?;
    Ok(())
}

/// Appends a symbol as an edit writes it.
fn put_symbol(out: &mut Vec<u8>, symbol: &Symbol) -> Result<(), NoMemory>
    ensures whole { OnOk result (out.new.items ≡ out.old.items ++ symbol_text symbol.now) }
    ensures prefix { OnErr result (AppendsPrefix out.old.items out.new.items (symbol_text symbol.now)) }
{
    match symbol {
        Symbol::Named(name) => put_parts(out, &[Part::Bytes(name.bytes())]),
        Symbol::Literal(text) => put_literal(out, text.bytes()),
    }
}

/// Appends the line for a token of this symbol.
fn put_token(out: &mut Vec<u8>, symbol: &Symbol, token: &Token) -> Result<(), NoMemory>
    ensures whole { OnOk result (out.new.items ≡ out.old.items ++ token_line symbol.now token.now) }
    ensures prefix { OnErr result (AppendsPrefix out.old.items out.new.items (token_line symbol.now token.now)) }
{
    let ends = [
        Part::Bytes(b" "),
        Part::Number(token.from),
        Part::Bytes(b" "),
        Part::Number(token.to),
        Part::Bytes(b"\n"),
    ];
    put_parts(out, &[Part::Bytes(b"token ")])?;
    put_symbol(out, symbol)?;
    put_parts(out, &ends)?;
    Ok(())
}

/// Appends a line for each token: its kind, a literal as an edit writes it, with the offsets in bytes where it
/// begins and ends.
///
/// The kinds are numbers of the grammar's symbols. Where memory runs out, the last line may be cut.
pub fn print_tokens(grammar: &Grammar, tokens: &[Token], out: &mut Vec<u8>) -> Result<(), NoMemory>
    requires { (token : TheToken) → Contains tokens.now token → token.kind.0 < length grammar.now.grammar.symbols }
    ensures whole { OnOk result (out.new.items ≡ out.old.items ++ tokens_text grammar.now.grammar.symbols tokens.now) }
    ensures prefix { OnErr result (AppendsPrefix out.old.items out.new.items (tokens_text grammar.now.grammar.symbols tokens.now)) }
{
    for token in tokens {
        put_token(out, symbol(grammar, token.kind), token)?;
    }
    Ok(())
}
