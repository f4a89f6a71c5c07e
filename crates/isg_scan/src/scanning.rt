//! The scan of a text.

ghost use Rattle.std.specs.Prelude.{◌≡◌, ◌≤◌, ◌⊎◌, ◌↔◌, ◌<◌, ◌^◌, length, Contains, IfOk, IfErr, OnOk};
ghost use Rattle.edit_log.specs.Tokens.{Tokenizes, tokens};
ghost use Rattle.isg_states.specs.declared.scan_key.ScanKey.{ScanKey};
ghost use Rattle.live_graph.specs.Cost.{RisesAsCost};
ghost use Rattle.isg_scan.specs.Reach.{ReachesScan};
ghost use Rattle.isg_scan.specs.Answers.{IsScanEnd, UnlessScanNoMemory};
ghost use Rattle.isg_scan.specs.Taken.{IsTaken, IsTokenTooMany};

use crate::scan_error::ScanError;
use crate::states::States;
use crate::walk::longest;
use edit_log::{DefKind, TOKEN_LIMIT};
use forest::Token;
use live_graph::Graph;
use std::alloc::Global;
use std::sync::ledger::Ledger;
use steps::Steps;

/// The most bytes of a text that is scanned.
pub const SCAN_LIMIT: usize = 65_536;

/// Takes a piece: a token for it is put behind the others, unless a skip won it.
fn take_piece(
    tokens: &mut Vec<Token>,
    kind: DefKind,
    from: usize,
    to: usize,
) -> Result<(), ScanError>
    requires few { length tokens.old.items ≤ TOKEN_LIMIT }
    requires order { from ≤ to }
    requires small { to < 2 ^ 32 }
    ensures taken { OnOk result (IsTaken kind from to tokens.old.items tokens.new.items) }
    ensures refused { IfErr result (IsTokenTooMany kind from tokens.old.items) }
{
    let DefKind::Token(kind) = kind else {
        return Ok(());
    };
    let is_full = tokens.len() == TOKEN_LIMIT;
    if is_full {
        return Err(ScanError::TooManyTokens {
            offset: from as u32,
        });
    }
    tokens.push(Token {
        kind,
        from: from as u32,
        to: to as u32,
    })?;
    Ok(())
}

/// The tokens of the text in the grammar of the graph. At each offset the longest piece that a live definition
/// matches is taken, and gives a token unless the definition that wins it is a skip. The graph is asked for a
/// state only where a byte is read from it.
pub fn scan<G: Graph, L: Ledger>(
    alloc: Global,
    graph: &mut G,
    text: &[u8],
    steps: &mut Steps<L>,
) -> Result<Vec<Token>, ScanError>
    requires { length text.now ≤ SCAN_LIMIT }
    ensures tokens { IfOk result (λ found. Tokenizes (G.means graph.old).grammar text.now (tokens found.items)) }
    ensures refused { IfErr result (IsScanEnd (G.means graph.old).grammar text.now) }
    ensures grammar { (G.means graph.new).grammar ≡ (G.means graph.old).grammar }
    ensures base { (G.means graph.new).base ≡ (G.means graph.old).base }
    ensures kernels { (G.means graph.new).kernels ≡ (G.means graph.old).kernels }
    ensures asked { UnlessScanNoMemory result ((key : ScanKey) → Contains (G.means graph.new).scans.keys key
        ↔ (Contains (G.means graph.old).scans.keys key ⊎ ReachesScan (G.means graph.old).grammar text.now key)) }
    ensures steps { UnlessScanNoMemory result (RisesAsCost (G.means graph.old) (G.means graph.new) steps.old steps.new) }
    ensures never_back { steps.old ≤ steps.new }
{
    let mut states = States::new(alloc)?;
    let mut tokens = Vec::new(alloc);
    let mut offset = 0;
    'pieces: while offset < text.len() {
        let Some((length, kind)) = longest(graph, &mut states, &text[offset..], steps)? else {
            return Err(ScanError::NoToken {
                offset: offset as u32,
            });
        };
        take_piece(&mut tokens, kind, offset, offset + length)?;
        offset += length;
    }
    Ok(tokens)
}
