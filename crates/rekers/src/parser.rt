//! The parser: its states, its stacks and what it has packed.

use crate::level::Level;
use gss::{StackGraph, Trails, Walk};
use packed_spans::PackedSpans;
use parser_states::States;
use std::alloc::Global;

/// The walk over the trail of no links, down from the first node.
pub(crate) const NO_LINKS: Walk = Walk {
    top: 0,
    length: 0,
    last: 0,
    through: None,
    floor: 0,
};

/// The buffers of a parse, which keep their memory from text to text.
#[derive(Drop)]
pub struct Parser {
    /// The states that this parse has met.
    pub(crate) states: States,
    /// Their nodes and links.
    pub(crate) stacks: StackGraph,
    /// The spans with their splits that were found.
    pub(crate) spans: PackedSpans,
    /// Of each span, the link that made it.
    pub(crate) owners: Vec<u32>,
    /// Of each place of the text, a node before which none there moves on a left side.
    pub(crate) openers: Vec<u32>,
    /// The walk that is under way.
    pub(crate) trails: Trails,
    /// The labels of the trail.
    pub(crate) parts: Vec<u32>,
    /// The last place, where nodes and links are added.
    pub(crate) level: Level,
    /// Whether no link joins two nodes of the level.
    pub(crate) is_flat: bool,
}

impl Parser {
    /// A parser that has met nothing.
    pub fn new(alloc: Global) -> Parser {
        Parser {
            states: States::new(alloc),
            stacks: StackGraph::new(alloc),
            spans: PackedSpans::new(alloc),
            owners: Vec::new(alloc),
            openers: Vec::new(alloc),
            trails: Trails::new(alloc, NO_LINKS),
            parts: Vec::new(alloc),
            level: Level {
                at: 0,
                first_node: 0,
                first_link: 0,
            },
            is_flat: true,
        }
    }
}
