//! Sets of marks.

ghost use Rattle.std.specs.Prelude.{◌≡◌, IfOk};
ghost use Rattle.isg_states.specs.Marks.{AreAscending};

use crate::NoMemory;
use crate::mark::Mark;
use smallvec::SmallVec;
use std::alloc::Global;
use std::marker::Model;

/// One mark or more, ascending by number. A contract sees the list of them. A few need no memory.
#[derive(Drop)]
pub struct Marks {
    /// The marks in this order, none twice.
    items: SmallVec<Mark, 4>,
}

impl Model for Marks {
    ghost use Rattle.std.specs.Prelude.{List};
    ghost use Rattle.isg_states.specs.declared.mark.Mark.{Mark};
    ghost use Rattle.isg_states.specs.Marks.{AreAscending};

    ghost Value = { List Mark };

    ghost view = { λ marks. marks.items.items };

    ghost invariant = { λ marks. AreAscending marks.items.items };
}

impl Marks {
    /// The set of these marks.
    pub fn of(alloc: Global, marks: &[Mark]) -> Result<Marks, NoMemory>
        requires { AreAscending marks.now }
        ensures { IfOk result (λ set. set ≡ marks.now) }
    {
        Ok(Marks {
            items: SmallVec::from_slice(alloc, marks)?,
        })
    }

    pub fn items(&self) -> &[Mark]
        ensures value { result.now ≡ self.now }
        ensures ascending { AreAscending self.now }
    {
        self.items.as_slice()
    }
}

impl Clone for Marks {
    ghost is_clone = { λ marks copy. copy ≡ marks };

    fn clone(&self) -> Result<Marks, NoMemory> {
        Ok(Marks {
            items: SmallVec::from_slice(*self.items.allocator(), self.items.as_slice())?,
        })
    }
}
