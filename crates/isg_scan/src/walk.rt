//! The longest piece that a definition matches.

ghost use Rattle.std.specs.Prelude.{◌≡◌, ◌≤◌, ◌<◌, ◌+◌, ◌^◌, ℕ, IfOk, OnOk, length, slice_get, Option, Some};
ghost use Rattle.isg_scan.specs.Asked.{StandsButScans, AsksOnly};
ghost use Rattle.isg_scan.specs.Reach.{MeetsState};
ghost use Rattle.isg_scan.specs.Knowing.{KnowsOf};
ghost use Rattle.isg_scan.specs.Walks.{IsPieceWalk, IsPieceWalked, best_with};

use crate::states::{NOWHERE, ROW, States};
use edit_log::DefKind;
use live_graph::{Graph, NoMemory};
use std::sync::ledger::Ledger;
use steps::Steps;

/// A piece: its length, and what it is.
pub(crate) type Piece = (usize, DefKind);

/// How far a text was read from where a piece begins.
#[derive(Clone, Copy)]
struct Walk {
    /// How many bytes were read.
    at: usize,
    /// The number of the state after them.
    state: usize,
    /// The longest piece among them that a definition matches.
    best: Option<Piece>,
}

/// The walk with one byte more, which leads to the state with this number.
fn with_byte(accepted: &[Option<DefKind>], walk: Walk, state: usize) -> Walk
    requires state { state < length accepted.now }
    requires room { walk.at + 1 < 2 ^ 64 }
    ensures at { result.at ≡ walk.at + 1 }
    ensures state { result.state ≡ state }
    ensures best { (kind : Option DefKind) → slice_get accepted.now state ≡ Some kind → result.best ≡ best_with walk.best (walk.at + 1) kind }
{
    let at = walk.at + 1;
    let best = match accepted[state] {
        Some(kind) => Some((at, kind)),
        None => walk.best,
    };
    Walk { at, state, best }
}

/// Reads on as far as the table tells: to the end of the text, or to a byte that leads nowhere or for which the
/// graph has to be asked. The graph is there for the contract, which says what the table means.
fn read_on<G: Graph>(_graph: &G, states: &States, text: &[u8], walk: Walk) -> Walk
    requires knows { KnowsOf (G.means _graph.now) states.now }
    requires walk { IsPieceWalk (G.means _graph.now).grammar (G.means _graph.now).scans.keys states.now.keys.keys text.now walk.at walk.state walk.best }
    ensures walk { IsPieceWalk (G.means _graph.now).grammar (G.means _graph.now).scans.keys states.now.keys.keys text.now result.at result.state result.best }
    ensures on { walk.at ≤ result.at }
{
    let table = states.table.as_slice();
    let accepted = states.accepted.as_slice();
    let mut walk = walk;
    'bytes: while walk.at < text.len() {
        let entry = table[ROW * walk.state + usize::from(text[walk.at])];
        if entry <= NOWHERE {
            return walk;
        }
        walk = with_byte(accepted, walk, entry as usize - 2);
    }
    walk
}

/// The longest piece that a definition matches and that the text begins with. The graph is asked only where a byte
/// is read for which the table has no entry.
pub(crate) fn longest<G: Graph, L: Ledger>(
    graph: &mut G,
    states: &mut States,
    text: &[u8],
    steps: &mut Steps<L>,
) -> Result<Option<Piece>, NoMemory>
    requires knows { KnowsOf (G.means graph.old) states.old }
    ensures walked { IfOk result (IsPieceWalked (G.means graph.new).grammar (G.means graph.new).scans.keys text.now) }
    ensures knows { OnOk result (KnowsOf (G.means graph.new) states.new) }
    ensures asks { OnOk result (AsksOnly (MeetsState (G.means graph.old).grammar text.now) (G.means graph.old) (G.means graph.new) steps.old steps.new) }
    ensures stands { StandsButScans (G.means graph.old) (G.means graph.new) }
    ensures never_back { steps.old ≤ steps.new }
{
    let mut walk = Walk {
        at: 0,
        state: 0,
        best: None,
    };
    'bytes: while walk.at < text.len() {
        let entry = states.entry(graph, walk.state, text[walk.at], steps)?;
        if entry == NOWHERE {
            return Ok(walk.best);
        }
        let next = with_byte(&states.accepted, walk, entry as usize - 2);
        walk = read_on(graph, states, text, next);
    }
    Ok(walk.best)
}
