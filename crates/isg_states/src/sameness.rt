//! Equality and hashes of marks, sets and keys.

ghost use Rattle.std.specs.Prelude.{◌≡◌, ◌++◌, ◌↔◌, IsTrue};
ghost use Rattle.std.specs.Cmp.{decided, partial_equiv_from_equiv};
ghost use Rattle.std.specs.Hash as fed;
ghost use Rattle.isg_states.specs.Sameness.{def_id_eq, mark_eq, mark_eq-decides, marks_eq, marks_eq-decides, key_eq, key_eq-decides, mark_fed, key_fed};

use crate::mark::Mark;
use crate::marks::Marks;
use crate::scan_key::ScanKey;
use edit_log::DefId;
use std::hash::{Hash, Hasher};

fn is_same_definition(a: DefId, b: DefId) -> bool
    ensures { result ≡ def_id_eq a b }
{
    match (a, b) {
        (DefId::Literal(a), DefId::Literal(b)) => a.0 == b.0,
        (DefId::Named(a), DefId::Named(b)) => a.0 == b.0,
        _ => false,
    }
}

impl PartialEq for Mark {
    ghost eq = { mark_eq };

    ghost laws = { partial_equiv_from_equiv (decided mark_eq mark_eq-decides) };

    fn eq(&self, other: &Mark) -> bool {
        is_same_definition(self.def, other.def) && self.index == other.index
    }
}

impl Eq for Mark {
    ghost laws = { decided mark_eq mark_eq-decides };
}

impl Hash for Mark {
    ghost hash_input = { mark_fed };

    ghost respects_eq = { (fed.same_Alike mark_fed mark_eq-decides).fed };

    fn hash<H: Hasher>(&self, state: &mut H) {
        state.write_u64(self.number());
    }
}

impl PartialEq for Marks {
    ghost eq = { marks_eq };

    ghost laws = { partial_equiv_from_equiv (decided marks_eq marks_eq-decides) };

    fn eq(&self, other: &Marks) -> bool {
        self.items() == other.items()
    }
}

impl Eq for Marks {
    ghost laws = { decided marks_eq marks_eq-decides };
}

impl Hash for Marks {
    ghost hash_input = { fed.slice mark_fed };

    ghost respects_eq = { (fed.same_Alike (fed.slice mark_fed) marks_eq-decides).fed };

    fn hash<H: Hasher>(&self, state: &mut H) {
        self.items().hash(state);
    }
}

impl PartialEq for ScanKey {
    ghost eq = { key_eq };

    ghost laws = { partial_equiv_from_equiv (decided key_eq key_eq-decides) };

    fn eq(&self, other: &ScanKey) -> bool {
        match (self, other) {
            (ScanKey::Start, ScanKey::Start) => true,
            (ScanKey::Set(marks), ScanKey::Set(other)) => marks == other,
            _ => false,
        }
    }
}

impl Eq for ScanKey {
    ghost laws = { decided key_eq key_eq-decides };
}

impl Hash for ScanKey {
    ghost hash_input = { key_fed };

    ghost respects_eq = { (fed.same_Alike key_fed key_eq-decides).fed };

    fn hash<H: Hasher>(&self, state: &mut H) {
        match self {
            ScanKey::Start => state.write_u8(0),
            ScanKey::Set(marks) => {
                state.write_u8(1);
                marks.hash(state);
            }
        }
    }
}

impl Marks {
    /// Whether both are the same set.
    #[tactic(auto, using(crate::specs::Sameness::sameness))]
    pub fn is_same(&self, other: &Marks) -> bool
        ensures { IsTrue result ↔ (self.now ≡ other.now) }
    {
        self == other
    }
}

impl ScanKey {
    /// Whether both are the same state.
    #[tactic(auto, using(crate::specs::Sameness::sameness))]
    pub fn is_same(&self, other: &ScanKey) -> bool
        ensures { IsTrue result ↔ (self.now ≡ other.now) }
    {
        self == other
    }
}
