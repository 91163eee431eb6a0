//! A leaf that is opened once for several questions.
ghost use Rattle.std.specs.Prelude.{◌≡◌, ◌<◌, length, get_or};
ghost use Rattle.judy_leaf.specs.Leaf.{IsLeaf, leaf_entries};
ghost use Rattle.judy_leaf.specs.Views.{of_leaf};

use crate::bitmap::Bits;
use crate::leaf::is_linear;
use crate::linear::Linear;
use judy_arena::Arena;
use judy_refs::Ref;

/// A leaf by its kind, with its words at hand. The empty leaf has none.
#[derive(Clone, Copy)]
pub(crate) enum Opened<'a> {
    Nothing,
    Linear(Linear<'a>),
    Bits(Bits<'a>),
}

/// Opens a leaf. Inlined, so that an opened leaf stays in registers.
#[inline(always)]
pub(crate) fn open(values: bool, arena: &Arena, leaf: Ref) -> Opened<'_>
    requires { IsLeaf values arena.now.blocks leaf }
    ensures { of_leaf result ≡ leaf_entries values arena.now.blocks leaf }
{
    let Some(block) = leaf.block() else {
        return Opened::Nothing;
    };
    let words = arena.words(block);
    if is_linear(leaf) {
        Opened::Linear(Linear { words, values })
    } else {
        Opened::Bits(Bits { words, values })
    }
}

impl Opened<'_> {
    /// The entry at this place.
    pub(crate) fn entry_at(self, place: u64) -> (u64, u64)
        requires { place < length (of_leaf self) }
        ensures { result ≡ get_or (of_leaf self.entry) place (0, 0) }
    {
        match self {
            Opened::Nothing => unreachable!(),
            Opened::Linear(leaf) => leaf.entry_at(place as usize),
            Opened::Bits(leaf) => leaf.entry_at(place),
        }
    }
}
