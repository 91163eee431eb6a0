//! The memory of a chunk. Only this file uses raw pointers.
ghost use Rattle.std.specs.Prelude.{ℕ, ◌≡◌, ◌<◌, ◌≤◌, ◌+◌, ◌++◌, [], ◌∷◌, List, length, slice_index, slice_set, slice_range, IfSome};
ghost use Rattle.std.specs.Borrow.{sem};
ghost use denote.RawPtr.{Ptr};

use std::alloc::Allocator;
use std::marker::{Model, PhantomData};

/// How many bytes a chunk asks of its allocator: 65,536 words of 8 bytes.
const BYTES: usize = 524_288;

const ALIGN: usize = 8;

/// Room for 65,536 words. The first `len` of them are in use.
pub(crate) struct Words {
    pub(crate) at: *mut u64,
    len: usize,
    pub(crate) ghost words: { List ℕ },
    pub(crate) ghost sized: { len ≡ length words },
    pub(crate) ghost within: { len ≤ 65536 },
}

impl Model for Words {
    ghost use Rattle.judy_region.specs.Ownership.{words_own, words_lent};

    ghost also_owns = { λ w. words_own w.at w.len w.words };

    ghost also_shares = { λ w _ κ. words_lent w.at w.len w.words κ };
}

/// The right to free that room. It takes no space.
pub(crate) struct Lease<A: Allocator> {
    marker: PhantomData<A>,
    pub(crate) ghost alloc: { A },
    pub(crate) ghost at: { Ptr },
}

impl<A: Allocator> Model for Lease<A> {
    ghost use Rattle.judy_region.specs.Ownership.{whole};

    ghost also_owns = { λ l. A.dealloc_token l.alloc whole l.at };
}

impl Words {
    ghost use Rattle.judy_region.specs.LendingWords.{LendsRun};

    /// The words in use.
    pub(crate) fn as_slice(&self) -> &[u64]
        ensures { result.now ≡ self.now.words }
    {
        unsafe { std::slice::from_raw_parts(self.at, self.len) }
    }

    /// The words of a part, mutable.
    pub(crate) fn part_mut(&mut self, start: usize, len: usize) -> &mut [u64]
        requires { start + len ≤ length self.old.words }
        ensures* lends { sem 𝓛 (LendsRun self.entry start len result) }
        ensures value { result.now ≡ slice_range self.old.words start (start + len) }
    {
        unsafe { std::slice::from_raw_parts_mut(self.at.add(start), len) }
    }

    /// Writes the word at a place.
    pub(crate) fn set(&mut self, i: usize, word: u64)
        requires { i < length self.old.words }
        ensures { (self.new.at ≡ self.old.at) × (self.new.words ≡ slice_set self.old.words i word) }
    {
        unsafe { *self.at.add(i) = word };
    }

    /// Adds a word. There is room for it.
    pub(crate) fn push(&mut self, word: u64)
        requires { length self.old.words < 65536 }
        ensures { (self.new.at ≡ self.old.at) × (self.new.words ≡ self.old.words ++ word ∷ []) }
    {
        unsafe { *self.at.add(self.len) = word };
        self.len += 1;
    }

    /// Room for the words of a chunk. None is in use yet.
    pub(crate) fn new<A: Allocator>(alloc: &A) -> Option<(Words, Lease<A>)>
        ensures { IfSome result (λ made. (made.0.words ≡ []) × (made.1.alloc ≡ alloc.now)
            × (made.1.at ≡ made.0.at)) }
    {
        match alloc.allocate(BYTES, ALIGN) {
            Ok(block) => {
                let at = block as *mut u64;
                let marker = PhantomData;
                Some((Words { at, len: 0 }, Lease { marker }))
            }
            Err(_) => None,
        }
    }

    /// Frees the room.
    pub(crate) fn free<A: Allocator>(self, lease: Lease<A>, alloc: &A)
        requires { (lease.alloc ≡ alloc.now) × (lease.at ≡ self.at) }
    {
        let Words { at, len: _ } = self;
        let Lease { marker: _ } = lease;
        unsafe { alloc.deallocate(at as *mut u8, BYTES, ALIGN) }
    }
}
