//! A position in the expression of a definition, and its number.

ghost use Rattle.std.specs.Prelude.{◌≡◌};
ghost use Rattle.isg_states.specs.Marks.{definition_number, mark_number};

use edit_log::DefId;
use forest::SymbolId;

/// One class in the expression of a definition. For a literal it is one of its bytes.
#[derive(Clone, Copy)]
pub struct Mark {
    /// The definition whose expression has the class.
    pub def: DefId,
    /// The class by its number, from 0 from left to right.
    pub index: u32,
}

/// What a place holds that no mark was put into yet.
impl Default for Mark {
    fn default() -> Mark {
        Mark {
            def: DefId::Literal(SymbolId(0)),
            index: 0,
        }
    }
}

fn definition_number(definition: DefId) -> u64
    ensures { result ≡ definition_number definition }
{
    match definition {
        DefId::Literal(symbol) => 2 * u64::from(symbol.0),
        DefId::Named(number) => 2 * u64::from(number.0) + 1,
    }
}

impl Mark {
    /// The number by which marks ascend: that of the definition times 256, and the index. A definition has
    /// twice the number of its symbol, or twice its own number and one.
    pub fn number(self) -> u64
        ensures { result ≡ mark_number self }
    {
        definition_number(self.def) * 256 + u64::from(self.index)
    }
}
