//! What a line of a script is, by its command word.

ghost use Rattle.std.specs.Prelude.{◌≡◌, drop, if◌then◌else◌};
ghost use Rattle.script_text.specs.Forms.{is_comment, begins_edit, form_by, form_of, Asks, StatsLine, OtherWord};
ghost use Rattle.grammar_text.specs.Pieces.{trimmed, is_empty};
ghost use Rattle.script_text.specs.Seen.{form_seen};

use grammar_text::{split_piece, trimmed};

/// What a command line asks for.
#[derive(Clone, Copy)]
pub(crate) enum Ask<'a> {
    /// A change of the grammar.
    Edit,
    /// To parse the text that is written so.
    Parse(&'a [u8]),
    /// To scan the text that is written so into tokens.
    Tokens(&'a [u8]),
    /// To tell what the tables hold.
    Stats,
}

/// A line of a script.
#[derive(Clone, Copy)]
pub(crate) enum Line<'a> {
    /// Blanks alone, or a comment.
    PassedOver,
    /// Its first piece is no command word, or more stands behind one that takes nothing.
    Unknown,
    /// A line that should be a command.
    Command(Ask<'a>),
}

/// Whether nothing is there, or the first byte begins a comment.
fn is_comment(begun: &[u8]) -> bool
    ensures { result ≡ is_comment begun.now }
{
    match begun {
        [] => true,
        [first, ..] => *first == b'#',
    }
}

/// What follows the blank behind a command word.
fn behind_blank(behind: &[u8]) -> &[u8]
    ensures { result.now ≡ drop 1 behind.now }
{
    match behind {
        [] => behind,
        [_, written @ ..] => written,
    }
}

/// Whether nothing but blanks is there.
fn is_all_blank(behind: &[u8]) -> bool
    ensures { result ≡ is_empty (trimmed behind.now) }
{
    match trimmed(behind) {
        [] => true,
        [_, ..] => false,
    }
}

/// Whether edits begin with the word.
fn begins_edit(word: &[u8]) -> bool
    ensures { result ≡ begins_edit word.now }
{
    word == b"rule".as_slice()
        || word == b"token".as_slice()
        || word == b"skip".as_slice()
        || word == b"drop".as_slice()
}

/// The form of a line whose command word is `stats`, and these bytes behind it.
fn form_of_stats(behind: &[u8]) -> Line<'_>
    ensures { form_seen result ≡ (if is_empty (trimmed behind.now) then Asks StatsLine else OtherWord) }
{
    if is_all_blank(behind) {
        Line::Command(Ask::Stats)
    } else {
        Line::Unknown
    }
}

/// The form of a line with this command word, and these bytes behind it.
#[tactic(auto, unfolding(crate::specs::Forms::form_by))]
fn form_by<'a>(word: &[u8], behind: &'a [u8]) -> Line<'a>
    ensures { form_seen result ≡ form_by word.now behind.now }
{
    if begins_edit(word) {
        Line::Command(Ask::Edit)
    } else if word == b"parse".as_slice() {
        Line::Command(Ask::Parse(behind_blank(behind)))
    } else if word == b"tokens".as_slice() {
        Line::Command(Ask::Tokens(behind_blank(behind)))
    } else if word == b"stats".as_slice() {
        form_of_stats(behind)
    } else {
        Line::Unknown
    }
}

/// The form of the line.
#[tactic(auto, unfolding(crate::specs::Forms::form_of))]
pub(crate) fn form_of(line: &[u8]) -> Line<'_>
    ensures { form_seen result ≡ form_of line.now }
{
    let begun = trimmed(line);
    if is_comment(begun) {
        return Line::PassedOver;
    }
    let (word, behind) = split_piece(begun);
    form_by(word, behind)
}
