//! The parts of an array whose root is a branch: the arrays under its children.
ghost use Rattle.std.specs.Prelude.{◌≡◌, ◌≤◌, [], ◌∷◌};
ghost use Rattle.judy_arena.specs.Frame.{Frame};
ghost use Rattle.judy_arena.specs.Takes.{TakesNothing};
ghost use Rattle.judy_branch.specs.Branch.{IsBranch};
ghost use Rattle.judy_model.specs.Contents.{head_of};
ghost use Rattle.judy_tree.specs.Parts.{parts, from, root_number};

use judy_arena::Arena;
use judy_refs::Ref;

/// The first part from a byte on, with its byte. None: there are no more.
pub fn next_part(arena: &Arena, branch: Ref, low: u16) -> Option<(u8, Ref)>
    requires branch { IsBranch arena.now.blocks branch }
    requires low { low ≤ 256 }
    ensures { result ≡ head_of (from low (parts arena.now.blocks branch)) }
{
    if low > 255 {
        return None;
    }
    judy_branch::next_child(arena, branch, low as u8)
}

/// Releases the block of a branch. The parts below it stay.
pub fn release_branch(arena: &mut Arena, branch: Ref)
    requires { IsBranch arena.old.blocks branch }
    ensures frame { Frame arena.old.blocks arena.new.blocks (root_number branch ∷ []) [] }
    ensures memory { TakesNothing arena.old arena.new }
{
    judy_branch::release(arena, branch);
}
