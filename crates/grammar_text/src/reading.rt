//! Reading an edit from a line.

ghost use Rattle.std.specs.Prelude.{◌≡◌, ◌≤◌, List, length, IfOk, Ok, codes};
ghost use Rattle.grammar_text.specs.declared.limits.TheConstants.{LINE_LIMIT, SYMBOL_LIMIT, LITERAL_LIMIT};
ghost use Rattle.grammar_text.specs.declared.edit.Edit.{Edit as AnEdit};
ghost use Rattle.grammar_text.specs.Pieces.{IsLine};
ghost use Rattle.grammar_text.specs.Spelling.{Spells};
ghost use Rattle.grammar_text.specs.Limits.{IsWithinLimits, IsSound, the_limits};
ghost use Rattle.grammar_text.specs.Reading.{IsRead, word_at, name_at, literal_from, literal_at, symbol_from, symbols_at, rule_at, expression_at};
ghost use Rattle.grammar_text.specs.Reading.{definition_at, last_name_at, dropped_at, edit_at, edit_of};

use crate::bad_edit::BadEdit;
use crate::cursor::Cursor;
use crate::edit::{DefText, Edit, RuleText};
use crate::limits::{EDIT_LIMIT, SYMBOL_LIMIT};
use crate::literal::literal_of;
use crate::name::{Name, is_name};
use crate::pieces::is_blank_led;
use crate::symbol::{Symbol, Symbols};
use crate::text::Text;
use crate::writing::written_len;
use std::alloc::Global;

/// The place behind a word that must come next.
#[tactic(auto, unfolding(crate::specs::Reading::word_at))]
fn word<'a>(place: &Cursor<'a>, word: &[u8]) -> Result<Cursor<'a>, BadEdit>
    ensures { IsRead result (word_at word.now place.now) }
{
    let next = place.trimmed();
    let (piece, behind) = next.split_piece();
    if piece != word {
        return Err(BadEdit::Shape {
            offset: next.offset(),
        });
    }
    Ok(behind)
}

/// A name that must come next, and the place behind it.
#[tactic(auto, unfolding(crate::specs::Reading::name_at))]
fn name<'a>(alloc: Global, place: &Cursor<'a>) -> Result<(Name, Cursor<'a>), BadEdit>
    ensures { IsRead result (name_at place.now) }
{
    let next = place.trimmed();
    if next.is_at_end() {
        return Err(BadEdit::Shape {
            offset: next.offset(),
        });
    }
    let (piece, behind) = next.split_piece();
    if !is_name(piece) {
        return Err(BadEdit::BadName {
            offset: next.offset(),
        });
    }
    Ok((Name::from_bytes(alloc, piece)?, behind))
}

/// A literal, from what was read behind its opening quote at this place.
fn literal<'a>(
    alloc: Global,
    place: &Cursor<'a>,
    text: &'a [u8],
) -> Result<(Symbol, Cursor<'a>), BadEdit>
    requires { length text.now ≤ length place.now.left }
    ensures { IsRead result (literal_from place.now (literal_at LITERAL_LIMIT text.now)) }
{
    let Some((bytes, rest)) = literal_of(alloc, text)? else {
        return Err(BadEdit::BadLiteral {
            offset: place.offset(),
        });
    };
    if bytes.bytes().is_empty() {
        return Err(BadEdit::BadLiteral {
            offset: place.offset(),
        });
    }
    let behind = place.at(rest);
    if !is_blank_led(rest) {
        return Err(BadEdit::Shape {
            offset: behind.offset(),
        });
    }
    Ok((Symbol::Literal(bytes), behind))
}

/// The symbol that begins at this place, and the place behind it.
#[tactic(auto, unfolding(crate::specs::Reading::symbol_from))]
fn symbol<'a>(alloc: Global, place: &Cursor<'a>) -> Result<(Symbol, Cursor<'a>), BadEdit>
    ensures { IsRead result (symbol_from the_limits place.now) }
{
    if let [b'"', text @ ..] = place.left() {
        return literal(alloc, place, text);
    }
    let (piece, behind) = place.split_piece();
    if !is_name(piece) {
        return Err(BadEdit::BadName {
            offset: place.offset(),
        });
    }
    Ok((Symbol::Named(Name::from_bytes(alloc, piece)?), behind))
}

/// The symbols up to the line's end.
fn symbols(alloc: Global, place: &Cursor<'_>) -> Result<Symbols, BadEdit>
    ensures { IsRead result (symbols_at the_limits SYMBOL_LIMIT place.now) }
{
    let mut symbols = Vec::new(alloc);
    let mut next = place.trimmed();
    while !next.is_at_end() {
        if symbols.len() == SYMBOL_LIMIT {
            return Err(BadEdit::TooManySymbols {
                offset: next.offset(),
            });
        }
        let (symbol, behind) = symbol(alloc, &next)?;
        symbols.push(symbol)?;
        next = behind.trimmed();
    }
    Ok(Symbols::from_vec(symbols))
}

/// A name, `::=` and the symbols up to the line's end.
#[tactic(auto, unfolding(crate::specs::Reading::rule_at))]
fn rule(alloc: Global, place: &Cursor<'_>) -> Result<RuleText, BadEdit>
    ensures { IsRead result (rule_at the_limits place.now) }
{
    let (left, behind) = name(alloc, place)?;
    let behind = word(&behind, b"::=")?;
    let right = symbols(alloc, &behind)?;
    Ok(RuleText { left, right })
}

/// The rest of the line from its first byte that is no blank.
#[tactic(auto, unfolding(crate::specs::Reading::expression_at))]
fn expression(alloc: Global, place: &Cursor<'_>) -> Result<Text, BadEdit>
    ensures { IsRead result (expression_at place.now) }
{
    let next = place.trimmed();
    if next.is_at_end() {
        return Err(BadEdit::Shape {
            offset: next.offset(),
        });
    }
    Ok(Text::from_vec(Vec::from_slice(alloc, next.left())?))
}

/// A name, `=` and an expression.
#[tactic(auto, unfolding(crate::specs::Reading::definition_at))]
fn definition(alloc: Global, place: &Cursor<'_>) -> Result<DefText, BadEdit>
    ensures { IsRead result (definition_at place.now) }
{
    let (name, behind) = name(alloc, place)?;
    let behind = word(&behind, b"=")?;
    let expression = expression(alloc, &behind)?;
    Ok(DefText { name, expression })
}

/// A name, and nothing else.
#[tactic(auto, unfolding(crate::specs::Reading::last_name_at))]
fn last_name(alloc: Global, place: &Cursor<'_>) -> Result<Name, BadEdit>
    ensures { IsRead result (last_name_at place.now) }
{
    let (name, behind) = name(alloc, place)?;
    let next = behind.trimmed();
    if !next.is_at_end() {
        return Err(BadEdit::Shape {
            offset: next.offset(),
        });
    }
    Ok(name)
}

/// An edit that drops something, behind its first piece.
#[tactic(auto, unfolding(crate::specs::Reading::dropped_at))]
fn dropped(alloc: Global, place: &Cursor<'_>) -> Result<Edit, BadEdit>
    ensures { IsRead result (dropped_at the_limits place.now) }
{
    let next = place.trimmed();
    let (word, behind) = next.split_piece();
    if word == b"rule".as_slice() {
        Ok(Edit::DropRule(rule(alloc, &behind)?))
    } else if word == b"token".as_slice() {
        Ok(Edit::DropToken(last_name(alloc, &behind)?))
    } else if word == b"skip".as_slice() {
        Ok(Edit::DropSkip(last_name(alloc, &behind)?))
    } else {
        Err(BadEdit::Shape {
            offset: next.offset(),
        })
    }
}

/// An edit of any length, by its first piece.
#[tactic(auto, unfolding(crate::specs::Reading::edit_at))]
fn edit(alloc: Global, place: &Cursor<'_>) -> Result<Edit, BadEdit>
    ensures { IsRead result (edit_at the_limits place.now) }
{
    let next = place.trimmed();
    let (word, behind) = next.split_piece();
    if word == b"rule".as_slice() {
        Ok(Edit::AddRule(rule(alloc, &behind)?))
    } else if word == b"token".as_slice() {
        Ok(Edit::AddToken(definition(alloc, &behind)?))
    } else if word == b"skip".as_slice() {
        Ok(Edit::AddSkip(definition(alloc, &behind)?))
    } else if word == b"drop".as_slice() {
        dropped(alloc, &behind)
    } else {
        Err(BadEdit::Shape {
            offset: next.offset(),
        })
    }
}

/// The edit that the line is, or its first wrong piece from the left.
#[tactic(auto, unfolding(crate::specs::Reading::edit_of))]
fn edit_of(alloc: Global, line: &[u8]) -> Result<Edit, BadEdit>
    requires { length line.now ≤ LINE_LIMIT }
    ensures { IsRead result (edit_of line.now) }
{
    let edit = edit(alloc, &Cursor::new(line))?;
    if written_len(&edit) > EDIT_LIMIT {
        return Err(BadEdit::TooLong { offset: 0 });
    }
    Ok(edit)
}

/// Reads an edit from a line.
///
/// The forms are `rule E ::= E "+" E`, `token NUM = [0-9]+` and `skip WS = [ ]+`, and to take such a thing away
/// `drop rule E ::= E "+" E`, `drop token NUM` and `drop skip WS`. Spaces or tabs stand between the pieces
/// and, if you like, at the line's ends; but what comes at the end of an expression is part of it. A literal
/// stands between quotes, and `\"`, `\\`, `\n` and `\t` in it for a quote, a backslash, a line's end and a
/// tab. The error is that of the leftmost wrong piece. An expression is not read here.
pub fn read_edit(alloc: Global, line: &[u8]) -> Result<Edit, BadEdit>
    requires short { length line.now ≤ LINE_LIMIT }
    requires one_line { IsLine line.now }

    // What is read is spelled so, within the limits.
    ensures found { IfOk result (λ edit. Spells line.now edit × IsWithinLimits edit) }
    ensures sound { IfOk result IsSound }
    // What is spelled so within the limits is read, unless memory runs out.
    ensures only { (edit : AnEdit) → Spells line.now edit → IsWithinLimits edit → IsRead result (Ok edit) }
    // Which error it is.
    ensures exact { IsRead result (edit_of line.now) }
{
    edit_of(alloc, line)
}
