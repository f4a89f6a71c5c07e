//! Texts, each scanned and parsed over one graph.

ghost use Rattle.std.specs.Prelude.{◌≡◌, ◌<◌};

use crate::answers::{Answers, answers_of};
use edit_log::Grammar;
use isg_scan::{SCAN_LIMIT, ScanError, scan};
use live_graph::{Graph, PrivateGraph};
use rekers::Parser;
use std::alloc::{AllocError, Global};
use std::marker::Brand;
use std::sync::ledger::{Blank, Ledger};
use steps::Steps;

/// What is answered for the text, if it has tokens.
pub(crate) fn asked<G: Graph, L: Ledger>(
    alloc: Global,
    parser: &mut Parser,
    graph: &mut G,
    text: &[u8],
    steps: &mut Steps<L>,
) -> Result<Option<Answers>, AllocError> {
    if text.len() > SCAN_LIMIT {
        return Ok(None);
    }
    match scan(alloc, graph, text, steps) {
        Ok(tokens) => answers_of(alloc, parser, graph, &tokens, steps),
        Err(ScanError::NoMemory) => Err(AllocError),
        Err(_) => Ok(None),
    }
}

fn asked_alone<L: Ledger>(
    alloc: Global,
    grammar: &Grammar,
    text: &[u8],
    blank: Blank,
) -> Result<Option<Answers>, AllocError>
    requires name { blank.name ≡ L.name }
    requires parts { blank.parts ≡ L.parts }
    requires some { 0 < L.parts }
{
    let mut parser = Parser::new(alloc);
    let mut graph = PrivateGraph::new(alloc, grammar)?;
    let mut steps = Steps::<L>::new(blank);
    asked(alloc, &mut parser, &mut graph, text, &mut steps)
}

/// What is answered for one text of a grammar, if it has tokens.
pub(crate) fn asked_once(
    alloc: Global,
    grammar: &Grammar,
    text: &[u8],
) -> Result<Option<Answers>, AllocError> {
    asked_alone::<Brand>(alloc, grammar, text, Blank::new(1))
}
