//! The lines that answer a text.

ghost use Rattle.std.specs.Prelude.{◌≡◌, ◌++◌, length, OnOk};
ghost use Rattle.forest_print.specs.Lines.{name_of, nodes_text, tokens_text};
ghost use Rattle.replies.specs.Lines.{head, no_token_line, too_many_line, scan_line, too_large_line, no_sentence_line, node_count_line, token_count_line};
ghost use Rattle.replies.specs.Lines.{forest_text, outcome_text, token_lines, result_text};
ghost use Rattle.replies.specs.Known.{AreKnownNodes, AreKnownTokens, IsKnownOutcome, IsKnownResult};

use crate::edit_lines::put_number;
use crate::reply::{Outcome, TokenList};
use edit_log::Grammar;
use forest::{Forest, Token};
use forest_print::{print, print_tokens};
use isg_scan::ScanError;
use rekers::Parsed;
use std::alloc::AllocError;

/// Appends how each line begins that answers a text: the command's word and the version.
#[tactic(auto, using(std::proofs::Common::append_assoc))]
fn put_head(out: &mut Vec<u8>, word: &[u8], version: u32) -> Result<(), AllocError>
    ensures { OnOk result (out.new.items ≡ out.old.items ++ head word.now version) }
{
    out.extend_from_slice(word)?;
    out.extend_from_slice(b" ")?;
    put_number(out, version)
}

/// Appends the line for a text in which no token begins at the offset.
#[tactic(auto, using(std::proofs::Common::append_assoc))]
fn put_no_token(out: &mut Vec<u8>, word: &[u8], version: u32, offset: u32) -> Result<(), AllocError>
    ensures { OnOk result (out.new.items ≡ out.old.items ++ no_token_line word.now version offset) }
{
    put_head(out, word, version)?;
    out.extend_from_slice(b" no token at ")?;
    put_number(out, offset)?;
    out.extend_from_slice(b"\n")?;
    Ok(())
}

/// Appends the line for a text in which a token too many begins at the offset.
#[tactic(auto, using(std::proofs::Common::append_assoc))]
fn put_too_many(out: &mut Vec<u8>, word: &[u8], version: u32, offset: u32) -> Result<(), AllocError>
    ensures { OnOk result (out.new.items ≡ out.old.items ++ too_many_line word.now version offset) }
{
    put_head(out, word, version)?;
    out.extend_from_slice(b" too many tokens at ")?;
    put_number(out, offset)?;
    out.extend_from_slice(b"\n")
}

/// Appends the line for a text that has no tokens.
fn put_scan_error(
    out: &mut Vec<u8>,
    word: &[u8],
    version: u32,
    error: ScanError,
) -> Result<(), AllocError>
    ensures { OnOk result (out.new.items ≡ out.old.items ++ scan_line word.now version error) }
{
    match error {
        ScanError::NoToken { offset } => put_no_token(out, word, version, offset),
        ScanError::TooManyTokens { offset } => put_too_many(out, word, version, offset),
        ScanError::NoMemory => Ok(()),
    }
}

/// Appends the line for a text whose parse is larger than it may be.
#[tactic(auto, using(std::proofs::Common::append_assoc))]
fn put_too_large(out: &mut Vec<u8>, version: u32) -> Result<(), AllocError>
    ensures { OnOk result (out.new.items ≡ out.old.items ++ too_large_line version) }
{
    put_head(out, b"parse", version)?;
    out.extend_from_slice(b" too large\n")?;
    Ok(())
}

/// Appends the line for a text that START does not derive, with the last place up to which a sentence can go on.
#[tactic(auto, using(std::proofs::Common::append_assoc))]
fn put_no_sentence(out: &mut Vec<u8>, version: u32, at: u32) -> Result<(), AllocError>
    ensures { OnOk result (out.new.items ≡ out.old.items ++ no_sentence_line version at) }
{
    put_head(out, b"parse", version)?;
    out.extend_from_slice(b" no sentence at ")?;
    put_number(out, at)?;
    out.extend_from_slice(b"\n")?;
    Ok(())
}

/// Appends the line that says how many nodes and splits the forest has.
#[tactic(auto, using(std::proofs::Common::append_assoc), unfolding(crate::specs::Lines::node_count_line))]
fn put_node_count(out: &mut Vec<u8>, version: u32, forest: &Forest) -> Result<(), AllocError>
    ensures { OnOk result (out.new.items ≡ out.old.items ++ node_count_line version forest.now.nodes) }
{
    put_head(out, b"parse", version)?;
    out.extend_from_slice(b" forest ")?;
    put_number(out, forest.nodes.as_slice().len())?;
    out.extend_from_slice(b" nodes ")?;
    put_number(out, forest.count_splits())?;
    out.extend_from_slice(b" splits\n")
}

/// Appends the lines for a forest.
#[tactic(auto, using(std::proofs::Common::append_assoc))]
fn put_forest(
    out: &mut Vec<u8>,
    grammar: &Grammar,
    version: u32,
    forest: &Forest,
) -> Result<(), AllocError>
    requires { AreKnownNodes grammar.now.grammar.symbols forest.now.nodes }
    ensures { OnOk result (out.new.items ≡ out.old.items ++ forest_text grammar.now.grammar.symbols version forest.now.nodes) }
{
    put_node_count(out, version, forest)?;
    print(grammar, forest, out)
}

/// Appends the lines for the outcome of a parse.
pub(crate) fn put_outcome(
    out: &mut Vec<u8>,
    grammar: &Grammar,
    version: u32,
    outcome: &Outcome,
) -> Result<(), AllocError>
    requires { IsKnownOutcome grammar.now.grammar.symbols outcome.now }
    ensures { OnOk result (out.new.items ≡ out.old.items ++ outcome_text grammar.now.grammar.symbols version outcome.now) }
{
    match outcome {
        Outcome::Parsed(Parsed::Forest(forest)) => put_forest(out, grammar, version, forest),
        Outcome::Parsed(Parsed::NoSentence { at }) => put_no_sentence(out, version, *at),
        Outcome::Scan(error) => put_scan_error(out, b"parse", version, *error),
        Outcome::TooLarge => put_too_large(out, version),
    }
}

/// Appends the line that says how many tokens a text has.
#[tactic(auto, using(std::proofs::Common::append_assoc), unfolding(crate::specs::Lines::token_count_line))]
fn put_token_count(out: &mut Vec<u8>, version: u32, count: usize) -> Result<(), AllocError>
    ensures { OnOk result (out.new.items ≡ out.old.items ++ token_count_line version count) }
{
    put_head(out, b"tokens", version)?;
    out.extend_from_slice(b" count ")?;
    put_number(out, count)?;
    out.extend_from_slice(b"\n")
}

/// Appends the lines for the tokens of a text.
#[tactic(auto, using(std::proofs::Common::append_assoc))]
fn put_tokens(
    out: &mut Vec<u8>,
    grammar: &Grammar,
    version: u32,
    tokens: &[Token],
) -> Result<(), AllocError>
    requires { AreKnownTokens grammar.now.grammar.symbols tokens.now }
    ensures { OnOk result (out.new.items ≡ out.old.items ++ token_lines grammar.now.grammar.symbols version tokens.now) }
{
    put_token_count(out, version, tokens.len())?;
    print_tokens(grammar, tokens, out)
}

/// Appends the lines for the scan of a text.
pub(crate) fn put_result(
    out: &mut Vec<u8>,
    grammar: &Grammar,
    version: u32,
    scanned: &Result<TokenList, ScanError>,
) -> Result<(), AllocError>
    requires { IsKnownResult grammar.now.grammar.symbols scanned.now }
    ensures { OnOk result (out.new.items ≡ out.old.items ++ result_text grammar.now.grammar.symbols version scanned.now) }
{
    match scanned {
        Ok(tokens) => put_tokens(out, grammar, version, tokens.as_slice()),
        Err(error) => put_scan_error(out, b"tokens", version, *error),
    }
}
