//! Each kernel of a grammar, expanded and searched.

ghost use Rattle.std.specs.Prelude.{◌≡◌, ◌<◌};

use crate::grammars::{are_items, grammar_of};
use crate::plain_search::searched;
use crate::telling::told;
use edit_log::{Grammar, Refusal};
use indexmap::IndexSet;
use item_sets::{Expansion, Kernel, Moves, expand};
use std::alloc::{AllocError, Global};
use std::marker::Brand;
use std::sync::ledger::{Blank, Ledger};
use steps::Steps;

/// No grammar that is tried has more kernels.
const MOST_KERNELS: usize = 1000;

/// What is met on the way through the kernels of a grammar.
#[derive(Drop)]
struct Counts {
    /// How many moves all expansions had together.
    moves: usize,
    /// How many reductions all expansions had together.
    reductions: usize,
    /// How many items all closures had together, as the search found them.
    items: usize,
}

/// The expansion, with steps that nobody reads.
fn expanded<L: Ledger>(
    alloc: Global,
    grammar: &Grammar,
    kernel: &Kernel,
    blank: Blank,
) -> Result<Expansion, AllocError>
    requires name { blank.name ≡ L.name }
    requires parts { blank.parts ≡ L.parts }
    requires some { 0 < L.parts }
{
    if !are_items(grammar, kernel) {
        return Err(AllocError);
    }
    let mut steps = Steps::<L>::new(blank);
    expand(alloc, grammar, kernel, &mut steps)
}

fn expansion_of(
    alloc: Global,
    grammar: &Grammar,
    kernel: &Kernel,
) -> Result<Expansion, AllocError> {
    expanded::<Brand>(alloc, grammar, kernel, Blank::new(1))
}

fn symbols_of(grammar: &Grammar) -> u32 {
    grammar.symbols()
}

/// Adds the kernels behind the moves.
fn add_kernels(kernels: &mut IndexSet<Kernel>, moves: Moves) -> Result<(), AllocError> {
    for (_, upper) in moves.into_vec() {
        kernels.insert(upper)?;
    }
    Ok(())
}

/// Expands the kernel, and gives what is told of it: by the expansion, and by the search.
fn both_ways(
    alloc: Global,
    grammar: &Grammar,
    kernels: &mut IndexSet<Kernel>,
    kernel: &Kernel,
    counts: &mut Counts,
) -> Result<(String, String), AllocError> {
    let expansion = expansion_of(alloc, grammar, kernel)?;
    let (plain, items) = searched(alloc, grammar, kernel)?;
    let found = told(alloc, &expansion, symbols_of(grammar))?;
    let Expansion {
        moves,
        reductions,
        ..
    } = expansion;
    counts.moves = counts.moves.wrapping_add(moves.as_slice().len());
    counts.reductions = counts.reductions.wrapping_add(reductions.into_vec().len());
    counts.items = counts.items.wrapping_add(items);
    add_kernels(kernels, moves)?;
    Ok((found, plain))
}

/// The line of the grammar that these edits make.
pub(crate) fn line_of(alloc: Global, edits: &str) -> Result<String, Refusal> {
    let grammar = grammar_of(alloc, edits)?;
    Ok(line_of_grammar(alloc, &grammar)?)
}

fn line_of_grammar(alloc: Global, grammar: &Grammar) -> Result<String, AllocError> {
    let mut kernels = IndexSet::new(alloc);
    kernels.insert(Kernel::start(alloc))?;
    let mut counts = Counts {
        moves: 0,
        reductions: 0,
        items: 0,
    };
    let mut first = String::new(alloc);
    for place in 0..MOST_KERNELS {
        if place < kernels.len() {
            let kernel = kernels.as_slice()[place].clone()?;
            let (found, plain) = both_ways(alloc, grammar, &mut kernels, &kernel, &mut counts)?;
            if found != plain {
                return format!(in alloc; "DIFFERS:{found}; searched:{plain}");
            }
            if place == 0 {
                first = found;
            }
        }
    }
    let Counts {
        moves,
        reductions,
        items,
    } = counts;
    format!(in alloc;
        "moves{first}; {} kernels, {moves} moves, {reductions} reductions, {items} items",
        kernels.len()
    )
}
