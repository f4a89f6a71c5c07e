//! The whole of a table.

ghost use Rattle.std.specs.Prelude.{◌≡◌, [], length, IfOk};
ghost use Rattle.pin_rule.specs.Hands.{view_of};
ghost use Rattle.pin_rule.specs.Views.{whole};
ghost use Rattle.version_store.specs.Roles.{role_of};
ghost use Rattle.version_store.specs.Graphs.{IsWholeKnown};

use crate::NoMemory;
use crate::editor::Editor;
use crate::lives::Lives;
use pin_rule::content::Content;
use pin_rule::hand::Hand;
use pin_rule::sizes::Sizes;
use std::alloc::Global;

/// The whole of a table: the editor's role with every share, one live version,
/// and what stands in its page. A bench that is dropped gives the table's memory
/// back.
pub struct Bench<C: Content> {
    /// The one user that there is.
    pub(crate) editor: Editor<C>,
    ghost has_all: { (view_of editor.hand).share ≡ whole },
    ghost one_version: { (role_of (view_of editor.hand)).older ≡ [] },
    ghost all_known: { ∥ IsWholeKnown editor.sizes (view_of editor.hand).known ∥₁ },
}

impl<C: Content> Editor<C> {
    /// Gives the memory of the table back.
    fn close(self)
        requires { (view_of self.hand).share ≡ whole }
    {
        self.hand.close();
    }
}

impl<C: Content> Bench<C> {
    ghost use Rattle.version_store.specs.Meaning.{IsNewBench};
    ghost use Rattle.version_store.specs.Means.{bench_of};

    /// A new table at version 0, whose page and log are empty. All memory but
    /// that of the passes is taken here.
    pub fn make(alloc: Global, sizes: Sizes) -> Result<Bench<C>, NoMemory>
        ensures { IfOk result (λ b. IsNewBench sizes (bench_of b)) }
    {
        let row = Vec::from_elem(alloc, 0u64, sizes.width as usize)?;
        let places = Vec::from_elem(alloc, 0u64, sizes.places as usize)?;
        let lives = Lives::first(alloc, sizes)?;
        let hand = Hand::open(alloc, sizes)?;
        let editor = Editor {
            alloc,
            hand,
            sizes,
            lives,
            left: sizes.pins,
            row,
            places,
        };
        Ok(Bench { editor })
    }

    /// The version.
    pub fn version(&self) -> u32
        ensures { result ≡ length (bench_of self.now).log }
    {
        self.editor.lives.newest.version
    }

    /// How many pins are left.
    pub fn pins_left(&self) -> u32
        ensures { result ≡ (bench_of self.now).pins_left }
    {
        self.editor.left
    }

    /// How many places a page has.
    pub fn places(&self) -> u32
        ensures { result ≡ (bench_of self.now).sizes.places }
    {
        self.editor.sizes.places
    }

    /// Takes the bench apart without giving the memory back.
    pub(crate) fn into_editor(self) -> Editor<C>
        ensures { result ≡ self.editor }
    {
        let Bench { editor } = self;
        editor
    }
}

impl<C: Content> Drop for Bench<C> {
    fn drop(self) {
        let Bench { editor } = self;
        editor.close();
    }
}
