//! How an editor and its passes are gathered into a bench.

ghost use Rattle.std.specs.Prelude.{◌≡◌, ◌∷◌, [], map, List, Option};
ghost use Rattle.pin_rule.specs.Hands.{view_of};
ghost use Rattle.pin_rule.specs.Views.{whole};
ghost use Rattle.slot_store.specs.Means.{pass_of};
ghost use Rattle.version_store.specs.Means.{bench_of, editor_of};
ghost use Rattle.version_store.specs.Rows.{Found};
ghost use Rattle.version_store.specs.Learning.{KnowsFound};
ghost use Rattle.version_store.specs.Gathering.{taken_in, taken_in_all, AreOfTable, AreAllOf, ReadsPage, Gathers};

use crate::bench::Bench;
use crate::current::Current;
use crate::editor::Editor;
use crate::page_reading::read_page;
use pin_rule::content::Content;
use slot_store::pass::Pass;

impl<C: Content> Editor<C> {
    /// Takes in a pass, with its share, its pins left and its steps.
    fn take_in(&mut self, pass: Pass<C>)
        requires { AreOfTable (editor_of self.old) (pass_of pass ∷ []) }
        ensures { editor_of self.new ≡ taken_in (pass_of pass) (editor_of self.old) }
    {
        self.left += pass.pins_left();
        self.hand.join(pass.into_hand());
    }

    /// Takes in passes, in their order.
    fn take_in_all(&mut self, passes: Vec<Pass<C>>)
        requires { AreOfTable (editor_of self.old) (map pass_of passes.items) }
        ensures { editor_of self.new ≡ taken_in_all (map pass_of passes.items) (editor_of self.old) }
    {
        let mut passes = passes;
        for _taken in 0..passes.len() {
            let pass = passes.remove(0);
            self.take_in(pass);
        }
    }

    /// Reads each place of the newest page, and each row that stands there.
    fn read_all(&mut self)
        ensures { (found : List (Option Found)) × ReadsPage (editor_of self.old) (editor_of self.new) found
            × ((view_of self.old.hand).share ≡ whole → KnowsFound self.old.sizes (view_of self.new.hand).known found) }
    {
        let newest = self.lives.newest;
        let current = Current {
            sizes: self.sizes,
            version: newest.version,
            page: newest.page,
            next: newest.page,
        };
        read_page(&mut self.hand, current, self.row.as_mut_slice());
    }
}

/// Gathers the editor and all passes of one part. The passes are taken in in
/// their order; then each older version is given up, since nobody pins it, and
/// the page that is left is read. It takes no memory.
pub fn gather<C: Content>(editor: Editor<C>, passes: Vec<Pass<C>>) -> Bench<C>
    requires { AreAllOf (editor_of editor) (map pass_of passes.items) }
    ensures { Gathers (editor_of editor) (map pass_of passes.items) (bench_of result) }
{
    let mut editor = editor;
    editor.take_in_all(passes);
    editor.give_up();
    editor.read_all();
    Bench { editor }
}
