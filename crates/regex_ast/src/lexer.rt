//! The pieces of an expression's text, from left to right.

ghost use Rattle.std.specs.Prelude.{◌≡◌};
ghost use Rattle.regex_ast.specs.Spelling.{escape_of, is_special_in_class};
ghost use Rattle.regex_ast.specs.Lexing.{lexed, after_piece, after_bracket, at_start, at_byte, at_dash, in_class};

use crate::byte_set::ByteSet;

/// A piece of an expression's text.
#[derive(Drop)]
pub(crate) enum Piece {
    /// An atom, a class or a dot: one byte of the set.
    OneOf(ByteSet),
    Open,
    Close,
    Bar,
    StarSign,
    PlusSign,
    MaybeSign,
}

/// How far a member of a class is read.
#[derive(Clone, Copy)]
pub(crate) enum Place {
    /// A member may begin.
    Start,
    /// After a backslash.
    Backslash,
    /// After one byte, which may begin a range.
    Byte(u8),
    /// After a byte and a dash.
    Dash(u8),
    /// After a byte, a dash and a backslash.
    DashBackslash(u8),
}

/// How far a piece is read.
#[derive(Drop)]
pub(crate) enum Mode {
    /// A piece may begin.
    Between,
    /// After a backslash outside a class.
    Escaped,
    /// After the bracket that opens a class.
    Opened,
    /// Inside a class, with the bytes of the members so far.
    Inside {
        /// Whether a `^` stands first in the class, so that it has the bytes that no member has.
        negated: bool,
        /// The bytes of the members that are read whole.
        set: ByteSet,
        /// How far the next member is read.
        place: Place,
    },
}

/// What one byte does.
#[derive(Drop)]
pub(crate) enum Step {
    /// No piece goes on like this.
    Refuse,
    /// The piece goes on.
    Go(Mode),
    /// The byte is the last one of the piece.
    Done(Piece),
}

/// Reads one byte of a piece.
pub(crate) fn lex(mode: Mode, byte: u8) -> Step
    ensures { result ≡ lexed mode byte }
{
    match mode {
        Mode::Between => begin_piece(byte),
        Mode::Escaped => match unescaped(byte) {
            None => Step::Refuse,
            Some(stands_for) => Step::Done(Piece::OneOf(ByteSet::of(stands_for))),
        },
        Mode::Opened => begin_class(byte),
        Mode::Inside {
            negated,
            set,
            place,
        } => inside(negated, set, place, byte),
    }
}

#[tactic(auto, unfolding(crate::specs::Lexing::after_piece))]
fn begin_piece(byte: u8) -> Step
    ensures { result ≡ after_piece byte }
{
    match byte {
        b'\\' => Step::Go(Mode::Escaped),
        b'[' => Step::Go(Mode::Opened),
        b']' => Step::Refuse,
        b'(' => Step::Done(Piece::Open),
        b')' => Step::Done(Piece::Close),
        b'|' => Step::Done(Piece::Bar),
        b'*' => Step::Done(Piece::StarSign),
        b'+' => Step::Done(Piece::PlusSign),
        b'?' => Step::Done(Piece::MaybeSign),
        b'.' => Step::Done(Piece::OneOf(ByteSet::of(b'\n').complement())),
        _ => Step::Done(Piece::OneOf(ByteSet::of(byte))),
    }
}

#[tactic(auto, unfolding(crate::specs::Lexing::after_bracket))]
fn begin_class(byte: u8) -> Step
    ensures { result ≡ after_bracket byte }
{
    if byte == b'^' {
        Step::Go(Mode::Inside {
            negated: true,
            set: ByteSet::new(),
            place: Place::Start,
        })
    } else {
        begin_member(false, ByteSet::new(), byte)
    }
}

fn inside(negated: bool, mut set: ByteSet, place: Place, byte: u8) -> Step
    ensures { result ≡ in_class negated set place byte }
{
    match place {
        Place::Start => begin_member(negated, set, byte),
        Place::Backslash => match unescaped(byte) {
            None => Step::Refuse,
            Some(low) => Step::Go(Mode::Inside {
                negated,
                set,
                place: Place::Byte(low),
            }),
        },
        Place::Byte(low) => after_low(negated, set, low, byte),
        Place::Dash(low) => after_dash(negated, set, low, byte),
        Place::DashBackslash(low) => match unescaped(byte) {
            None => Step::Refuse,
            Some(high) => {
                set.insert_range(low, high);
                Step::Go(Mode::Inside {
                    negated,
                    set,
                    place: Place::Start,
                })
            }
        },
    }
}

#[tactic(auto, unfolding(crate::specs::Lexing::at_start))]
fn begin_member(negated: bool, set: ByteSet, byte: u8) -> Step
    ensures { result ≡ at_start negated set byte }
{
    if byte == b']' {
        let set = if negated { set.complement() } else { set };
        Step::Done(Piece::OneOf(set))
    } else if byte == b'\\' {
        Step::Go(Mode::Inside {
            negated,
            set,
            place: Place::Backslash,
        })
    } else if is_special_in_class(byte) {
        Step::Refuse
    } else {
        Step::Go(Mode::Inside {
            negated,
            set,
            place: Place::Byte(byte),
        })
    }
}

#[tactic(auto, unfolding(crate::specs::Lexing::at_byte))]
fn after_low(negated: bool, mut set: ByteSet, low: u8, byte: u8) -> Step
    ensures { result ≡ at_byte negated set low byte }
{
    if byte == b'-' {
        Step::Go(Mode::Inside {
            negated,
            set,
            place: Place::Dash(low),
        })
    } else {
        set.insert_range(low, low);
        begin_member(negated, set, byte)
    }
}

#[tactic(auto, unfolding(crate::specs::Lexing::at_dash))]
fn after_dash(negated: bool, mut set: ByteSet, low: u8, byte: u8) -> Step
    ensures { result ≡ at_dash negated set low byte }
{
    if byte == b'\\' {
        Step::Go(Mode::Inside {
            negated,
            set,
            place: Place::DashBackslash(low),
        })
    } else if is_special_in_class(byte) {
        Step::Refuse
    } else {
        set.insert_range(low, byte);
        Step::Go(Mode::Inside {
            negated,
            set,
            place: Place::Start,
        })
    }
}

fn is_special_in_class(byte: u8) -> bool
    ensures { result ≡ is_special_in_class byte }
{
    matches!(byte, b'\\' | b'[' | b']' | b'^' | b'-')
}

/// What the byte stands for after a backslash.
#[tactic(auto, unfolding(crate::specs::Spelling::escape_of))]
fn unescaped(byte: u8) -> Option<u8>
    ensures { result ≡ escape_of byte }
{
    match byte {
        b'n' => Some(b'\n'),
        b't' => Some(b'\t'),
        b'0'..=b'9' | b'A'..=b'Z' | b'a'..=b'z' => None,
        b' '..=b'~' => Some(byte),
        _ => None,
    }
}
