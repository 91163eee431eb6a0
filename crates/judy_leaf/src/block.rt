//! References to leaves.
ghost use Rattle.std.specs.Prelude.{◌≡◌, Some};
ghost use Rattle.judy_refs.specs.References.{kind_of, block_of};
ghost use Rattle.judy_refs.specs.declared.Kind.TheVariants.{BitmapLeaf, FullLeaf};

use judy_arena::Block;
use judy_refs::{Kind, Ref};

/// A reference to a block of this kind.
pub(crate) fn refer(kind: Kind, block: Block) -> Ref
    ensures kind { kind_of result ≡ Some kind }
    ensures block { block_of result ≡ Some block }
{
    let _number = block.number();
    Ref::of(kind, block)
}

/// A reference to a bitmap leaf of this many keys: to a full leaf if there are 256.
pub(crate) fn refer_bits(count: usize, block: Block) -> Ref
    ensures full { count ≡ 256 → kind_of result ≡ Some FullLeaf }
    ensures bitmap { (count ≡ 256 → ⊥) → kind_of result ≡ Some BitmapLeaf }
    ensures block { block_of result ≡ Some block }
{
    if count == 256 {
        refer(Kind::FullLeaf, block)
    } else {
        refer(Kind::BitmapLeaf, block)
    }
}
