//! Reading an expression from its text.

ghost use Rattle.std.specs.Prelude.{◌≡◌, ◌<◌, ◌≤◌, ◌+◌, ◌^◌, ◌⊎◌, Some, Ok, Err, length, IfOk, IfErr, MatchResult};
ghost use Rattle.regex_ast.specs.declared.limits.TheConstants.{REGEX_LIMIT, POSITION_LIMIT};
ghost use Rattle.regex_ast.specs.Expressions.{Expression, tree_of, class_count};
ghost use Rattle.regex_ast.specs.Nests.{first_state, after_byte, after_bytes, answer_of, judged, StopsAt, StopsReading};
ghost use Rattle.regex_ast.specs.Held.{state_of};
ghost use Rattle.regex_ast.specs.Refusals.{SpellsWithinLimits, IsCause};

use crate::bad_regex::BadRegex;
use crate::breaches::Breaches;
use crate::lexer::{Mode, Step, lex};
use crate::regex::Regex;
use crate::stack::Stack;
use std::alloc::Global;

/// A text that is read byte by byte.
#[derive(Drop)]
pub(crate) struct Reader {
    /// How far the piece is read.
    pub(crate) mode: Mode,
    /// What the pieces before it came to.
    pub(crate) stack: Stack,
    /// Where these pieces broke the limits.
    pub(crate) breaches: Breaches,
    /// The offset at which the piece that is read begins.
    pub(crate) start: u32,
}

impl Reader {
    fn new(alloc: Global) -> Self
        ensures state { state_of result ≡ first_state }
        ensures few { result.breaches.classes ≡ 0 }
    {
        Reader {
            mode: Mode::Between,
            stack: Stack::new(alloc),
            breaches: Breaches::new(),
            start: 0,
        }
    }

    /// Reads the byte at the offset `at`.
    fn read(self, alloc: Global, at: u32, byte: u8) -> Result<Reader, BadRegex>
        requires few { self.breaches.classes + 1 < 2 ^ 32 }
        requires before { at + 1 < 2 ^ 32 }
        ensures stands { IfOk result (λ next. after_byte (state_of self) at byte ≡ Some (state_of next)) }
        ensures few { IfOk result (λ next. next.breaches.classes ≤ self.breaches.classes + 1) }
        ensures stops { IfErr result (λ refusal. StopsAt (after_byte (state_of self) at byte) at refusal) }
    {
        let Reader {
            mode,
            stack,
            mut breaches,
            start,
        } = self;
        match lex(mode, byte) {
            Step::Refuse => Err(BadRegex::Shape { offset: at }),
            Step::Go(mode) => Ok(Reader {
                mode,
                stack,
                breaches,
                start,
            }),
            Step::Done(piece) => {
                breaches.note(&piece, stack.depth(), start);
                let next = stack.put(alloc, piece).map_err(|_| BadRegex::NoMemory)?;
                match next {
                    None => Err(BadRegex::Shape { offset: at }),
                    Some(stack) => Ok(Reader {
                        mode: Mode::Between,
                        stack,
                        breaches,
                        start: at + 1,
                    }),
                }
            }
        }
    }

    /// The expression, where the text ends at the offset `end`.
    fn finish(self, alloc: Global, end: u32) -> Result<Regex, BadRegex>
        ensures read { IfOk result (λ regex. answer_of (state_of self) end ≡ Ok (tree_of regex)) }
        ensures refused { IfErr result (λ refusal. (refusal ≡ BadRegex.NoMemory) ⊎ (answer_of (state_of self) end ≡ Err refusal)) }
    {
        let Reader {
            mode,
            stack,
            breaches,
            start: _,
        } = self;
        let Mode::Between = mode else {
            return Err(BadRegex::Shape { offset: end });
        };
        let regex = stack.finish(alloc).map_err(|_| BadRegex::NoMemory)?;
        match regex {
            None => Err(BadRegex::Shape { offset: end }),
            Some(regex) => within_limits(regex, breaches),
        }
    }
}

fn within_limits(regex: Regex, breaches: Breaches) -> Result<Regex, BadRegex>
    ensures read { IfOk result (λ kept. judged breaches.empty breaches.deep breaches.many (tree_of regex) ≡ Ok (tree_of kept)) }
    ensures refused { IfErr result (λ refusal. judged breaches.empty breaches.deep breaches.many (tree_of regex) ≡ Err refusal) }
{
    if let Some(offset) = breaches.empty {
        return Err(BadRegex::EmptyClass { offset });
    }
    if let Some(offset) = breaches.deep {
        return Err(BadRegex::TooDeep { offset });
    }
    if let Some(offset) = breaches.many {
        return Err(BadRegex::TooManyPositions { offset });
    }
    Ok(regex)
}

/// Reads the text of an expression.
///
/// A text spells one expression at most. `Then` and `Or` group to the left. No call recurses on
/// the text: what is read so far stands on a stack with a level for each open parenthesis.
pub fn read_regex(alloc: Global, text: &[u8]) -> Result<Regex, BadRegex>
    requires { length text.now ≤ REGEX_LIMIT }
    ensures found { IfOk result (λ regex. SpellsWithinLimits text.now (tree_of regex)) }
    ensures only { (e : Expression) → SpellsWithinLimits text.now e →
        MatchResult result (λ regex. tree_of regex ≡ e) (λ refusal. refusal ≡ BadRegex.NoMemory) }
    ensures exact { IfErr result (λ refusal. IsCause text.now refusal) }
    ensures few { IfOk result (λ regex. class_count (tree_of regex) ≤ POSITION_LIMIT) }
{
    let reader = read_bytes(alloc, text)?;
    reader.finish(alloc, text.len() as u32)
}

/// Reads each byte of the text.
fn read_bytes(alloc: Global, text: &[u8]) -> Result<Reader, BadRegex>
    requires { length text.now ≤ REGEX_LIMIT }
    ensures stands { IfOk result (λ reader. after_bytes first_state 0 text.now ≡ Some (state_of reader)) }
    ensures stops { IfErr result (λ refusal. StopsReading text.now refusal) }
{
    let mut reader = Reader::new(alloc);
    for (at, byte) in text.iter().enumerate() {
        reader = reader.read(alloc, at as u32, *byte)?;
    }
    Ok(reader)
}
