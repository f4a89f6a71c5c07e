//! What the editor does: it makes versions and gives them up.

ghost use Rattle.version_store.specs.Edits.{IsSameEditor};
ghost use Rattle.version_store.specs.Means.{editor_of};

use crate::asking::Work;
use crate::keeping::{KeepEven, Keeping, keeping_of};
use pin_rule::choosers::{KeepAll, KeepNone};
use pin_rule::content::AnyRow;
use std::sync::atomic::{AtomicU64, Ordering};
use std::thread;
use version_store::edit_error::EditError;
use version_store::editor::Editor;

/// How often the editor tries to make a version beside the passes, or waits for them, at most.
const TRIES: u32 = 2_000_000;

/// What the editor was answered.
#[derive(Clone, Copy)]
pub(crate) struct Edited {
    /// How many versions were made.
    pub(crate) made: u32,
    /// How many of them had another number than the next.
    pub(crate) misnamed: u32,
}

impl Edited {
    pub(crate) fn nothing() -> Edited {
        Edited {
            made: 0,
            misnamed: 0,
        }
    }

    fn counted(self, version: u32, next: u32) -> Edited {
        Edited {
            made: self.made.saturating_add(1),
            misnamed: self.misnamed.saturating_add((version != next) as u32),
        }
    }
}

/// Tries to make the version of this number.
fn make(editor: &mut Editor<AnyRow>, next: u32) -> Result<u32, EditError>
    ensures { IsSameEditor (editor_of editor.old) (editor_of editor.new) }
{
    let entry = [next as u64; 32];
    match keeping_of(next as u64) {
        Keeping::All => editor.edit(&entry, &mut KeepAll),
        Keeping::Even => editor.edit(&entry, &mut KeepEven),
        Keeping::None => editor.edit(&entry, &mut KeepNone),
    }
}

/// Tries to make the next version, and gives up what nobody pins.
fn make_next(editor: &mut Editor<AnyRow>, edited: Edited) -> Edited
    ensures { IsSameEditor (editor_of editor.old) (editor_of editor.new) }
{
    let next = editor.version().saturating_add(1);
    let made = make(editor, next);
    editor.give_up();
    match made {
        Ok(version) => edited.counted(version, next),
        Err(_) => {
            thread::yield_now();
            edited
        }
    }
}

/// Makes versions beside the passes, the next one after so many visits of theirs.
pub(crate) fn make_beside(
    editor: Editor<AnyRow>,
    work: Work,
    visits: &AtomicU64,
) -> (Editor<AnyRow>, Edited)
    ensures { IsSameEditor (editor_of editor) (editor_of result.0) }
{
    let mut editor = editor;
    let mut edited = Edited::nothing();
    for _try in 0..TRIES {
        let version = editor.version();
        if version >= work.versions {
            break;
        }
        if visits.load(Ordering::SeqCst) < work.visits.saturating_mul(version as u64) {
            thread::yield_now();
            continue;
        }
        edited = make_next(&mut editor, edited);
    }
    (editor, edited)
}

/// Makes the versions that are left, while no pin is out.
pub(crate) fn make_rest(
    editor: Editor<AnyRow>,
    work: Work,
    edited: Edited,
) -> (Editor<AnyRow>, Edited)
    ensures { IsSameEditor (editor_of editor) (editor_of result.0) }
{
    let mut editor = editor;
    let mut edited = edited;
    for _left in editor.version()..work.versions {
        edited = make_next(&mut editor, edited);
    }
    (editor, edited)
}
