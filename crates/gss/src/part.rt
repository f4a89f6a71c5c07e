//! Parts of trails, link by link.

ghost use Rattle.std.specs.Prelude.{◌≡◌, ◌<◌, ◌^◌, ◌↔◌, ℕ, List, [], ◌∷◌, ◌++◌, OnOk, Some, IsTrue, length};
ghost use Rattle.gss.specs.Trails.{PassesLink};
ghost use Rattle.gss.specs.Descents.{IsMetAfter};

use crate::NoMemory;
use std::alloc::Global;

/// Links down from the top of a walk, and where they met the one that is named.
#[derive(Drop)]
pub(crate) struct Part {
    /// The links, the upper one first.
    pub(crate) links: Vec<u32>,
    /// After how many links the named one was met: after none if none is named, after more than there are if it was not
    /// met.
    pub(crate) met: usize,
}

/// After how many links a part of none has met the named one.
fn met_at_first(through: Option<u32>) -> usize
    ensures { IsMetAfter through [] result }
{
    let Some(_) = through else {
        return 0;
    };
    1
}

/// Whether the link is the one that is named.
#[inline(always)]
fn is_named(through: Option<u32>, link: u32) -> bool
    ensures { IsTrue result ↔ (through ≡ Some link) }
{
    let Some(named) = through else {
        return false;
    };
    named == link
}

/// After how many links the named one is met, once the link stands below so many others.
#[inline(always)]
fn met_with(through: Option<u32>, link: u32, met: usize, count: usize) -> usize
    requires { count < 2 ^ 63 }
    ensures { (part : List ℕ) → length part ≡ count → IsMetAfter through part met → IsMetAfter through (part ++ link ∷ []) result }
{
    if met <= count {
        return met;
    }
    if is_named(through, link) {
        return count + 1;
    }
    count + 2
}

impl Part {
    /// A part of no links.
    pub(crate) fn new(alloc: Global, through: Option<u32>) -> Part
        ensures links { result.links.items ≡ [] }
        ensures met { IsMetAfter through result.links.items result.met }
    {
        Part {
            links: Vec::new(alloc),
            met: met_at_first(through),
        }
    }

    /// Takes all links away.
    pub(crate) fn clear(&mut self, through: Option<u32>)
        ensures links { self.new.links.items ≡ [] }
        ensures met { IsMetAfter through self.new.links.items self.new.met }
    {
        self.links.clear();
        self.met = met_at_first(through);
    }

    /// Adds the link below the others.
    #[inline(always)]
    pub(crate) fn put(&mut self, through: Option<u32>, link: u32) -> Result<(), NoMemory>
        requires { IsMetAfter through self.old.links.items self.old.met }
        ensures met { IsMetAfter through self.new.links.items self.new.met }
        ensures links { OnOk result (self.new.links.items ≡ self.old.links.items ++ link ∷ []) }
    {
        let count = self.links.len();
        self.links.push(link)?;
        self.met = met_with(through, link, self.met, count);
        Ok(())
    }

    /// Whether the named link was met, if one is named.
    #[inline(always)]
    pub(crate) fn passes(&self, _through: Option<u32>) -> bool
        requires { IsMetAfter _through self.now.links.items self.now.met }
        ensures { IsTrue result ↔ PassesLink _through self.now.links.items }
    {
        self.met <= self.links.len()
    }
}
