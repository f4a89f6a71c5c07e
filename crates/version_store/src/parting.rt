//! How a bench is parted.

ghost use Rattle.std.specs.Prelude.{◌≡◌, ◌≤◌, ◌*◌, [], IfOk, IfErr};
ghost use Rattle.pin_rule.specs.Hands.{view_of, table_of};
ghost use Rattle.pin_rule.specs.Views.{whole, now};
ghost use Rattle.version_store.specs.Roles.{role_of};
ghost use Rattle.version_store.specs.Meaning.{bench_meaning};
ghost use Rattle.version_store.specs.Means.{bench_of, editor_of};
ghost use Rattle.version_store.specs.Parts.{Parts};
ghost use Rattle.version_store.specs.Dividing.{IsRoomFor, Divides};

use crate::NoMemory;
use crate::bench::Bench;
use crate::editor::Editor;
use pin_rule::content::Content;
use pin_rule::hand::Hand;
use pin_rule::sizes::Sizes;
use slot_store::pass::Pass;
use std::alloc::Global;

/// Memory for some passes: a buffer for each, and a list with room for them.
#[derive(Drop)]
struct Room<C: Content> {
    /// A buffer for each pass.
    buffers: Vec<Vec<u64>>,
    /// A list with room for them.
    passes: Vec<Pass<C>>,
}

fn make_room<C: Content>(alloc: Global, sizes: Sizes, count: u32) -> Result<Room<C>, NoMemory>
    ensures { IfOk result (λ room. IsRoomFor sizes count room) }
{
    let passes = Vec::with_capacity(alloc, count as usize)?;
    let mut buffers = Vec::with_capacity(alloc, count as usize)?;
    for _made in 0..count {
        let buffer = Vec::from_elem(alloc, 0u64, sizes.width as usize)?;
        buffers.push_reserved(buffer);
    }
    Ok(Room { buffers, passes })
}

/// Splits so many passes off the hand, each with so many pins. They begin to
/// look for free rows at different places of the pool, so that they seldom try
/// the same ones.
fn split_passes<C: Content>(
    hand: &mut Hand<C>,
    sizes: Sizes,
    version: u32,
    room: Room<C>,
    pins: u32,
    count: u32,
) -> Vec<Pass<C>>
    requires sizes { (view_of hand.old).sizes ≡ sizes }
    requires has_all { (view_of hand.old).share ≡ whole }
    requires version { version ≡ now (view_of hand.old) }
    requires count { (1 ≤ count) × (count ≤ 16) }
    requires pins { count * pins ≤ (view_of hand.old).pins_left }
    requires room { IsRoomFor sizes count room }
    ensures table { table_of hand.new ≡ table_of hand.old }
    ensures divides { Divides (view_of hand.old) (view_of hand.new) (table_of hand.old) pins count result.items }
{
    let Room {
        mut buffers,
        mut passes,
    } = room;
    let stride = sizes.rows / count;
    let mut next = 0;
    for _made in 0..count {
        let buffer = buffers.take_last();
        let half = hand.split(pins);
        passes.push_reserved(Pass::new(half, sizes, version, pins, next, buffer));
        next = (next + stride).min(sizes.rows);
    }
    passes
}

/// Splits so many passes off the editor, and leaves it the rest of the pins.
fn part_editor<C: Content>(
    editor: Editor<C>,
    room: Room<C>,
    count: u32,
) -> (Editor<C>, Vec<Pass<C>>)
    requires has_all { (view_of editor.hand).share ≡ whole }
    requires one_version { (role_of (view_of editor.hand)).older ≡ [] }
    requires count { (1 ≤ count) × (count ≤ 16) }
    requires room { IsRoomFor editor.sizes count room }
    ensures { Parts (bench_meaning (view_of editor.hand) (table_of editor.hand)) count (editor_of result.0) result.1.items }
{
    let Editor {
        alloc,
        mut hand,
        sizes,
        lives,
        left,
        row,
        places,
    } = editor;
    let pins = left / count;
    let version = lives.newest.version;
    let passes = split_passes(&mut hand, sizes, version, room, pins, count);
    let editor = Editor {
        alloc,
        hand,
        sizes,
        lives,
        left: left - count * pins,
        row,
        places,
    };
    (editor, passes)
}

impl<C: Content> Bench<C> {
    /// Parts the bench into its editor and so many passes. Each pass gets the
    /// pins left divided by the count, rounded down, and the editor keeps the
    /// rest. The memory of the passes is taken before the first is split off,
    /// so after a refusal the bench is as it was.
    pub fn part(self, count: u32) -> Result<(Editor<C>, Vec<Pass<C>>), (Bench<C>, NoMemory)>
        requires { (1 ≤ count) × (count ≤ 16) }
        ensures parts { IfOk result (λ r. Parts (bench_of self) count (editor_of r.0) r.1.items) }
        ensures refused { IfErr result (λ e. e.0 ≡ self) }
    {
        let room = match make_room(self.editor.alloc, self.editor.sizes, count) {
            Ok(room) => room,
            Err(error) => return Err((self, error)),
        };
        Ok(part_editor(self.into_editor(), room, count))
    }
}
