//! The editor and all passes at the same time, and how they are gathered again.

ghost use Rattle.std.specs.Prelude.{◌≡◌, ◌≤◌, map, IfOk, IfErr, vec_len, vec_capacity};
ghost use Rattle.std.specs.Thread.{IsSync};
ghost use Rattle.slot_store.specs.Means.{pass_of};
ghost use Rattle.version_store.specs.Edits.{IsSameEditor};
ghost use Rattle.version_store.specs.Means.{bench_of, editor_of};
ghost use Rattle.version_store.specs.Parts.{Parts};
ghost use Rattle.version_store_soak.specs.Working.{IsBack, AreBack, HasPinsOfTable};

use crate::asking::Work;
use crate::editing::{Edited, make_beside, make_rest};
use crate::visiting::{Seen, visit_all};
use pin_rule::content::AnyRow;
use slot_store::pass::Pass;
use std::sync::atomic::AtomicU64;
use std::thread;
use std::thread::Threads;
use version_store::NoMemory;
use version_store::bench::Bench;
use version_store::editor::Editor;
use version_store::gathering::gather;

/// The work of all passes, each in a thread of its own. They come back in the list that they came in.
fn visit_in_threads<R: Threads + Sync>(
    rt: &R,
    passes: Vec<Pass<AnyRow>>,
    work: Work,
    visits: &AtomicU64,
) -> (Vec<Pass<AnyRow>>, Seen)
    ensures back { AreBack (map pass_of passes.items) (map pass_of result.0.items) }
    ensures many { vec_len result.0 ≡ vec_len passes }
    ensures room { vec_capacity result.0 ≡ vec_capacity passes }
{
    let mut rest = passes;
    let Some(last) = rest.pop() else {
        return (rest, Seen::nothing());
    };
    let ((pass, mine), (others, theirs)) = thread::join(
        rt,
        move || -> (Pass<AnyRow>, Seen)
            ensures { IsBack (pass_of last) (pass_of result.0) }
        { visit_all(last, work, visits) },
        move || -> (Vec<Pass<AnyRow>>, Seen)
            requires { IsSync R.row }
            ensures back { AreBack (map pass_of rest.items) (map pass_of result.0.items) }
            ensures many { vec_len result.0 ≡ vec_len rest }
            ensures room { vec_capacity result.0 ≡ vec_capacity rest }
        { visit_in_threads(rt, rest, work, visits) },
    );
    let mut back = others;
    back.push_reserved(pass);
    (back, mine.with(theirs))
}

/// What came of a table that was parted and gathered.
pub(crate) struct Round {
    /// The table.
    pub(crate) bench: Bench<AnyRow>,
    /// What the editor was answered.
    pub(crate) edited: Edited,
    /// What the passes saw.
    pub(crate) seen: Seen,
    /// How often a bench that was to be parted was given back, since there was no memory.
    pub(crate) refused: u32,
}

/// Passes and an editor at the same time. The versions that are left then are made by the editor alone.
fn work_together<R: Threads + Sync>(
    rt: &R,
    editor: Editor<AnyRow>,
    passes: Vec<Pass<AnyRow>>,
    work: Work,
) -> (Editor<AnyRow>, Vec<Pass<AnyRow>>, Edited, Seen)
    ensures editor { IsSameEditor (editor_of editor) (editor_of result.0) }
    ensures passes { AreBack (map pass_of passes.items) (map pass_of result.1.items) }
{
    let made = AtomicU64::new(0);
    let visits = &made;
    let ((editor, edited), (passes, seen)) = thread::join(
        rt,
        move || -> (Editor<AnyRow>, Edited)
            ensures { IsSameEditor (editor_of editor) (editor_of result.0) }
        { make_beside(editor, work, visits) },
        move || -> (Vec<Pass<AnyRow>>, Seen)
            requires { IsSync R.row }
            ensures { AreBack (map pass_of passes.items) (map pass_of result.0.items) }
        { visit_in_threads(rt, passes, work, visits) },
    );
    let (editor, edited) = make_rest(editor, work, edited);
    (editor, passes, edited, seen)
}

/// Parts the bench. Where memory runs out the bench is given back, and is parted once more.
fn part_again(
    bench: Bench<AnyRow>,
    count: u32,
) -> Result<(Editor<AnyRow>, Vec<Pass<AnyRow>>, u32), NoMemory>
    requires { (1 ≤ count) × (count ≤ 16) }
    ensures { IfOk result (λ r. Parts (bench_of bench) count (editor_of r.0) r.1.items) }
{
    let bench = match bench.part(count) {
        Ok((editor, passes)) => return Ok((editor, passes, 0)),
        Err((bench, _)) => bench,
    };
    match bench.part(count) {
        Ok((editor, passes)) => Ok((editor, passes, 1)),
        Err((_, error)) => Err(error),
    }
}

/// Parts the bench, has the editor and all passes work, and gathers them.
pub(crate) fn work_and_gather<R: Threads + Sync>(
    rt: &R,
    bench: Bench<AnyRow>,
    count: u32,
    work: Work,
) -> Result<Round, NoMemory>
    requires count { (1 ≤ count) × (count ≤ 16) }
    requires pins { HasPinsOfTable (bench_of bench) }
    ensures { IfOk result (λ round. HasPinsOfTable (bench_of round.bench)) }
{
    let (editor, passes, refused) = match part_again(bench, count) {
        Ok(parts) => parts,
        Err(error) => return Err(error),
    };
    let (editor, passes, edited, seen) = work_together(rt, editor, passes, work);
    let bench = gather(editor, passes);
    Ok(Round {
        bench,
        edited,
        seen,
        refused,
    })
}
