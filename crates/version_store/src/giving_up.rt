//! How versions that nobody pins are given up.

ghost use Rattle.std.specs.Prelude.{◌≡◌, ◌≢◌, ◌<◌, ◌+◌, ℕ, [], length, IfSome, IfNone};
ghost use Rattle.pin_rule.specs.Hands.{view_of};
ghost use Rattle.pin_rule.specs.Views.{whole};
ghost use Rattle.version_store.specs.Meaning.{EditorMeaning};
ghost use Rattle.version_store.specs.Means.{editor_of};
ghost use Rattle.version_store.specs.GivingUp.{GivesUpOldest, KeepsOldest, GivesUp, GivesUpAll, Stops};

use crate::editor::Editor;
use crate::freeing::free_page;
use crate::leaving::Leaving;
use pin_rule::content::Content;

/// How many versions were given up, and where an older one stays, how many of
/// the pins taken on the oldest one were dropped.
#[derive(Clone, Copy)]
pub(crate) struct GivenUp {
    /// How many versions were given up.
    pub(crate) count: u32,
    /// How many pins on the oldest one that stays were dropped.
    pub(crate) released: u32,
}

impl<C: Content> Editor<C> {
    /// Gives up the oldest version if each pin that was taken on it was dropped.
    /// Else it answers how many were.
    fn give_up_oldest(&mut self) -> Option<u32>
        requires { 0 < length self.old.lives.older.items }
        ensures gone { IfNone result (GivesUpOldest (editor_of self.old) (editor_of self.new)) }
        ensures stays { IfSome result (λ released. KeepsOldest (editor_of self.old) (editor_of self.new) released) }
        ensures few { IfNone result (length self.new.lives.older.items + 1 ≡ length self.old.lives.older.items) }
        ensures known { (view_of self.new.hand).known ≡ (view_of self.old.hand).known }
        ensures shared { IfSome result (λ _. (editor_of self.old).share ≢ whole) }
    {
        let oldest = self.lives.older[0];
        let met = self.hand.load_release(oldest.live.page);
        let released = met - oldest.live.base;
        if released < oldest.taken as u64 {
            return Some(released as u32);
        }
        self.lives.drop_oldest(met);
        let leaving = Leaving {
            sizes: self.sizes,
            page: oldest.live.page,
            next: self.lives.oldest_page(),
        };
        free_page(&mut self.hand, leaving, &self.lives.carried);
        None
    }

    /// Gives up versions, the oldest first, up to one with a pin that was not
    /// dropped.
    pub(crate) fn give_up_dropped(&mut self) -> GivenUp
        ensures given { (l : EditorMeaning) × GivesUp result.count (editor_of self.old) l × Stops l (editor_of self.new) result.released }
        ensures alone { (editor_of self.old).share ≡ whole → (editor_of self.new).older ≡ [] }
        ensures known { (view_of self.new.hand).known ≡ (view_of self.old.hand).known }
    {
        let most = self.lives.older.len() as u32;
        for count in 0..most {
            if let Some(released) = self.give_up_oldest() {
                return GivenUp { count, released };
            }
        }
        GivenUp {
            count: most,
            released: 0,
        }
    }

    /// Gives up the oldest version, as long as it is not the current one and each
    /// pin that was taken on it was dropped. Its page and its rows are used
    /// again. Answers how many versions were given up. It takes no memory.
    pub fn give_up(&mut self) -> u32
        ensures given { GivesUpAll result (editor_of self.old) (editor_of self.new) }
        ensures alone { (editor_of self.old).share ≡ whole → (editor_of self.new).older ≡ [] }
        ensures known { (view_of self.new.hand).known ≡ (view_of self.old.hand).known }
    {
        self.give_up_dropped().count
    }
}
