//! The states that a scan has met, by numbers of their own.

ghost use Rattle.std.specs.Prelude.{◌≡◌, ◌≤◌, ◌<◌, ◌+◌, ◌*◌, ℕ, List, Some, IfOk, OnOk, length, slice_get};
ghost use Rattle.isg_states.specs.declared.scan_key.ScanKey.{ScanKey};
ghost use Rattle.isg_states.specs.Expansion.{AreMarks};
ghost use Rattle.live_graph.specs.Asking.{AsksScan};
ghost use Rattle.isg_scan.specs.Asked.{StandsButScans, AsksOnly};
ghost use Rattle.isg_scan.specs.Knowing.{KnowsOf};
ghost use Rattle.forest.specs.Numbers.{KeepsNumbers};
ghost use Rattle.isg_scan.specs.States.{IsWinnerKind, IsScanTable, AreStates, KnowsNothingYet, KnowsStates, LeadsToState, IsFilled};

use crate::leading::led;
use edit_log::{DefKind, Grammar};
use indexmap::IndexSet;
use isg_states::{ScanKey, accepts};
use live_graph::{Graph, NoMemory};
use std::alloc::{AllocError, Global};
use std::sync::ledger::Ledger;
use steps::Steps;

/// How many entries of the table a state has: one for each byte.
pub(crate) const ROW: usize = 256;

/// An entry of the table where the graph was not asked.
pub(crate) const UNKNOWN: u32 = 0;

/// An entry of the table where the byte leads nowhere.
pub(crate) const NOWHERE: u32 = 1;

/// States by number, in the order in which they were met, the start first.
#[derive(Drop)]
pub(crate) struct States {
    /// The key of each state. Its place is the number of the state.
    pub(crate) keys: IndexSet<ScanKey>,
    /// What a piece is that ends in the state.
    pub(crate) accepted: Vec<Option<DefKind>>,
    /// An entry for each state and byte. One above `NOWHERE` is two more than the number of a state.
    pub(crate) table: Vec<u32>,
}

/// What a piece is that ends in the state.
fn accepted_by(grammar: &Grammar, key: &ScanKey) -> Option<DefKind>
    requires { AreMarks grammar.now.grammar key.now }
    ensures { IsWinnerKind grammar.now.grammar key.now result }
{
    match accepts(grammar, key) {
        Some(winner) => grammar.kind(winner),
        None => None,
    }
}

/// Writes the entry at the bytes from `low` to `high` of the state.
fn fill(table: &mut Vec<u32>, state: usize, low: u8, high: u8, entry: u32)
    requires order { low ≤ high }
    requires inside { 256 * state + high < length table.old.items }
    ensures { IsFilled table.old.items table.new.items (256 * state + low) (256 * state + high) entry }
{
    let row = ROW * state;
    for place in row + usize::from(low)..row + usize::from(high) + 1 {
        table[place] = entry;
    }
}

/// The entry that leads to the state with this number. Nobody has the memory for a table of more states.
fn entry_to(number: usize) -> Result<u32, NoMemory>
    ensures { IfOk result (λ entry. entry ≡ number + 2) }
{
    let Ok(number) = u32::try_from(number) else {
        return Err(AllocError);
    };
    number.checked_add(2).ok_or(AllocError)
}

impl States {
    /// The start alone, of which nothing is known yet.
    pub(crate) fn new(alloc: Global) -> Result<States, NoMemory>
        ensures { IfOk result (λ states. KnowsNothingYet states.keys.keys states.accepted.items states.table.items) }
    {
        let mut keys = IndexSet::new(alloc);
        keys.insert(ScanKey::Start)?;
        let mut accepted = Vec::new(alloc);
        accepted.push(None)?;
        let mut table = Vec::new(alloc);
        table.resize(ROW, UNKNOWN)?;
        Ok(States {
            keys,
            accepted,
            table,
        })
    }

    /// The entry that leads to the state, which gets the next number if it has none.
    fn entry_for(&mut self, grammar: &Grammar, key: ScanKey) -> Result<u32, NoMemory>
        requires states { AreStates grammar.now.grammar self.old.keys.keys self.old.accepted.items }
        requires marks { AreMarks grammar.now.grammar key }
        ensures entry { IfOk result (λ entry. LeadsToState self.new.keys.keys key entry) }
        ensures keeps { OnOk result (KeepsNumbers self.old.keys.keys self.new.keys.keys) }
        ensures knows { OnOk result ((asked : List ScanKey) → IsScanTable grammar.now.grammar self.old.keys.keys asked self.old.table.items
            → KnowsStates grammar.now.grammar asked self.new.keys.keys self.new.accepted.items self.new.table.items) }
    {
        if let Some(number) = self.keys.get_index_of(&key) {
            return entry_to(number);
        }
        let entry = entry_to(self.keys.len())?;
        self.accepted.push(accepted_by(grammar, &key))?;
        self.table.resize(self.table.len() + ROW, UNKNOWN)?;
        self.keys.insert(key)?;
        Ok(entry)
    }

    /// Asks the graph where the byte leads from the state with this number, and keeps the answer. Gives the entry.
    fn learn<G: Graph, L: Ledger>(
        &mut self,
        graph: &mut G,
        state: usize,
        byte: u8,
        steps: &mut Steps<L>,
    ) -> Result<u32, NoMemory>
        requires knows { KnowsOf (G.means graph.old) self.old }
        requires state { state < length self.old.keys.keys }
        ensures asks { OnOk result ((key : ScanKey) → slice_get self.old.keys.keys state ≡ Some key
            → AsksScan (G.means graph.old) key (G.means graph.new) steps.old steps.new) }
        ensures stands { StandsButScans (G.means graph.old) (G.means graph.new) }
        ensures never_back { steps.old ≤ steps.new }
        ensures keeps { OnOk result (KeepsNumbers self.old.keys.keys self.new.keys.keys) }
        ensures knows { OnOk result (KnowsOf (G.means graph.new) self.new) }
        ensures entry { IfOk result (λ entry. (0 < entry) × (slice_get self.new.table.items (256 * state + byte) ≡ Some entry)) }
    {
        match led(graph, &self.keys.as_slice()[state], byte, steps)? {
            Some((low, high, target)) => {
                let entry = self.entry_for(graph.grammar(), target)?;
                fill(&mut self.table, state, low, high, entry);
                Ok(entry)
            }
            None => {
                fill(&mut self.table, state, byte, byte, NOWHERE);
                Ok(NOWHERE)
            }
        }
    }

    /// The entry for the state with this number and the byte, learned if it is not known.
    pub(crate) fn entry<G: Graph, L: Ledger>(
        &mut self,
        graph: &mut G,
        state: usize,
        byte: u8,
        steps: &mut Steps<L>,
    ) -> Result<u32, NoMemory>
        requires knows { KnowsOf (G.means graph.old) self.old }
        requires state { state < length self.old.keys.keys }
        ensures asks { OnOk result (AsksOnly (λ key. slice_get self.old.keys.keys state ≡ Some key)
            (G.means graph.old) (G.means graph.new) steps.old steps.new) }
        ensures stands { StandsButScans (G.means graph.old) (G.means graph.new) }
        ensures never_back { steps.old ≤ steps.new }
        ensures keeps { OnOk result (KeepsNumbers self.old.keys.keys self.new.keys.keys) }
        ensures knows { OnOk result (KnowsOf (G.means graph.new) self.new) }
        ensures entry { IfOk result (λ entry. (0 < entry) × (slice_get self.new.table.items (256 * state + byte) ≡ Some entry)) }
    {
        let known = self.table[ROW * state + usize::from(byte)];
        if known == UNKNOWN {
            return self.learn(graph, state, byte, steps);
        }
        Ok(known)
    }
}
