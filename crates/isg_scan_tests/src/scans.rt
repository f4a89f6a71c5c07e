//! What a scan gives, as words.

ghost use Rattle.std.specs.Prelude.{◌≡◌, ◌<◌, ◌≤◌, length};
ghost use Rattle.isg_scan.specs.declared.scanning.TheConstants.{SCAN_LIMIT};

use edit_log::Grammar;
use forest::Token;
use isg_scan::{SCAN_LIMIT, ScanError, scan};
use live_graph::PrivateGraph;
use std::alloc::{AllocError, Global};
use std::marker::Brand;
use std::sync::ledger::{Blank, Ledger};
use steps::Steps;

/// The most tokens that are told one by one.
const FEW: usize = 16;

/// Scans the text twice over one graph. Gives what the second scan gave.
fn scanned<L: Ledger>(
    alloc: Global,
    grammar: &Grammar,
    text: &[u8],
    blank: Blank,
) -> Result<Vec<Token>, ScanError>
    requires small { length text.now ≤ SCAN_LIMIT }
    requires name { blank.name ≡ L.name }
    requires parts { blank.parts ≡ L.parts }
    requires some { 0 < L.parts }
{
    let mut graph = PrivateGraph::new(alloc, grammar)?;
    let mut steps = Steps::<L>::new(blank);
    match scan(alloc, &mut graph, text, &mut steps) {
        Ok(_) => scan(alloc, &mut graph, text, &mut steps),
        Err(ScanError::NoMemory) => Err(ScanError::NoMemory),
        Err(_) => scan(alloc, &mut graph, text, &mut steps),
    }
}

/// Adds the token: its kind and its ends.
fn tell_token(alloc: Global, told: &mut String, token: Token) -> Result<(), AllocError> {
    told.push_str(&format!(in alloc; " {} {}-{}", token.kind.0, token.from, token.to)?)
}

/// The tokens, or how many there are where they are many.
fn told_tokens(alloc: Global, tokens: &[Token]) -> Result<String, AllocError> {
    if tokens.len() > FEW {
        return format!(in alloc; " {} tokens", tokens.len());
    }
    let mut told = String::new(alloc);
    for token in tokens {
        tell_token(alloc, &mut told, *token)?;
    }
    Ok(told)
}

fn told_error(alloc: Global, error: ScanError) -> Result<String, AllocError> {
    match error {
        ScanError::NoToken { offset } => format!(in alloc; " no token at {offset}"),
        ScanError::TooManyTokens { offset } => format!(in alloc; " too many at {offset}"),
        ScanError::NoMemory => Err(AllocError),
    }
}

/// What the scan of the text gives.
pub(crate) fn told_scan(
    alloc: Global,
    grammar: &Grammar,
    text: &[u8],
) -> Result<String, AllocError> {
    if text.len() > SCAN_LIMIT {
        return Err(AllocError);
    }
    match scanned::<Brand>(alloc, grammar, text, Blank::new(1)) {
        Ok(tokens) => told_tokens(alloc, &tokens),
        Err(error) => told_error(alloc, error),
    }
}

/// What the scan of a piece gives that stands so many times one behind the other.
pub(crate) fn told_times(
    alloc: Global,
    grammar: &Grammar,
    rest: &str,
) -> Result<String, AllocError> {
    let Some((count, piece)) = rest.split_once(' ') else {
        return Err(AllocError);
    };
    let Ok(count) = count.parse::<u32>() else {
        return Err(AllocError);
    };
    let mut text = Vec::new(alloc);
    for _ in 0..count {
        text.extend_from_slice(piece.as_bytes())?;
    }
    told_scan(alloc, grammar, &text)
}
