//! A branch that is opened once for several questions.
ghost use Rattle.std.specs.Prelude.{◌≡◌, ◌≤◌};
ghost use Rattle.judy_model.specs.Contents.{word_order, value_of};
ghost use Rattle.judy_branch.specs.Branch.{IsBranch, branch_view};

use crate::heads::Head;
use crate::read::{child_in, look};
use crate::shape::{Shape, read_shape};
use judy_arena::Arena;
use judy_refs::Ref;
use std::marker::Model;

/// An opened branch. Callers see the branch's view.
#[derive(Drop)]
pub struct Opened<'a> {
    shape: Shape,
    words: &'a [u64],
}

impl<'a> Model for Opened<'a> {
    ghost use Rattle.judy_branch.specs.Branch.{View, view_in};
    ghost use Rattle.judy_branch.specs.Children.{IsShaped};

    ghost Value = { View };

    ghost view = { λ o. view_in o.shape o.words.now };

    ghost invariant = { λ o. IsShaped o.shape o.words.now };
}

/// Opens a branch. Inlined with the calls below, so that an opened branch stays in registers.
#[inline(always)]
pub fn open(arena: &Arena, branch: Ref) -> Opened<'_>
    requires { IsBranch arena.now.blocks branch }
    ensures { result ≡ branch_view arena.now.blocks branch }
{
    Opened {
        shape: read_shape(branch),
        words: look(arena, branch),
    }
}

impl<'a> Opened<'a> {
    /// Its head.
    #[inline(always)]
    pub fn head(&self) -> Head
        ensures level { result.level ≡ self.now.level }
        ensures prefix { result.prefix ≡ self.now.prefix }
        ensures population { result.population ≡ self.now.population }
        ensures low { result.level ≤ 6 }
    {
        Head {
            level: (self.words[0] / 512) as u8,
            prefix: self.words[1],
            population: self.words[2],
        }
    }

    /// The child of a byte.
    #[inline(always)]
    pub fn child(&self, byte: u8) -> Option<Ref>
        ensures { result ≡ value_of word_order self.now.children byte }
    {
        match child_in(self.shape, self.words, byte) {
            Some(word) => Some(Ref::known(word)),
            None => None,
        }
    }
}
