//! The key of an array in the directory, and its place.
ghost use Rattle.std.specs.Prelude.{◌≡◌, ℕ, ◌∷◌, ◌<◌, [], Some, refl, drop, nat_eq, slice_index};
ghost use Rattle.judy_directory.specs.Kinds.{spot_of, is_gone, IsOf};
ghost use Rattle.judy_directory.specs.Lengths.{name_length};
ghost use Rattle.judy_directory.specs.Order.{is_on};
ghost use Rattle.std.specs.Cmp.{partial_equiv_from_equiv};
ghost use Rattle.std.specs.Cmp.Lexicographic.{pointwise, slice_cmp, nat_list_eq_equiv, nat_list_cmp_total};
ghost use Rattle.std.specs.Cmp.Lexicographic.{bytes_decides, texts_po, texts_ties};
ghost use Rattle.std.specs.Ordering.{nat_cmp};
ghost use Rattle.std.specs.Hash.{same_Alike, le_bytes};

use judy_model::{Kind, Name};
use judy_refs::Ref;
use std::cmp::Ordering;
use std::hash::{Hash, Hasher};
use std::marker::Model;

/// A tenant, a kind of array and a name. Contracts see a list of numbers: one for tenant and kind,
/// then the bytes of the name.
#[derive(Drop)]
pub struct Spot {
    owner: u16,
    name: Name,
}

impl Model for Spot {
    ghost use Rattle.std.specs.Prelude.{ℕ, List, ◌∷◌};

    ghost Value = { List ℕ };

    ghost view = { λ s. s.owner ∷ s.name };
}

impl Spot {
    /// The key of this tenant's array of this kind and name.
    pub fn new(tenant: u8, kind: Kind, name: Name) -> Spot
        ensures { result ≡ spot_of tenant kind name }
    {
        Spot {
            owner: 4 * tenant as u16 + kind.number() as u16,
            name,
        }
    }

    /// The tenant of the array.
    pub fn tenant(&self) -> usize
        ensures { IsOf result self.now }
    {
        (self.owner / 4) as usize
    }

    /// Whether the array belongs to a tenant that is marked.
    pub fn is_gone(&self, gone: &[bool]) -> bool
        ensures { result ≡ is_gone gone.now self.now }
    {
        let place = self.tenant();
        place < gone.len() && gone[place]
    }

    /// Whether the key comes behind another one, or is that one where that counts too.
    pub(crate) fn is_on(&self, start: &Spot, itself: bool) -> bool
        ensures { result ≡ is_on itself start.now self.now }
    {
        if itself {
            return *self >= *start;
        }
        *self > *start
    }

    /// The kind and the name of the array.
    pub fn array(&self) -> (Kind, Name)
        ensures { (tenant : ℕ) → IsOf tenant self.now
            → spot_of tenant result.0 result.1 ≡ self.now }
    {
        (Kind::with(self.owner % 4), self.name.copied())
    }

    /// The number of bytes of the name.
    pub fn bytes(&self) -> u64
        ensures { result ≡ name_length self.now }
    {
        self.name.as_bytes().len() as u64
    }

    /// A copy of the key.
    pub fn copied(&self) -> Spot
        ensures { result ≡ self.now }
    {
        Spot {
            owner: self.owner,
            name: self.name.copied(),
        }
    }
}

impl PartialEq for Spot {
    ghost eq = { λ a b. pointwise nat_eq a b };

    ghost laws = { partial_equiv_from_equiv nat_list_eq_equiv };

    fn eq(&self, other: &Self) -> bool {
        self.owner == other.owner && self.name == other.name
    }
}

impl Eq for Spot {
    ghost laws = { nat_list_eq_equiv };
}

impl PartialOrd for Spot {
    ghost partial_cmp = { λ a b. Some (slice_cmp nat_cmp a b) };

    ghost laws = { texts_po };

    fn partial_cmp(&self, other: &Self) -> Option<Ordering> {
        Some(self.cmp(other))
    }
}

impl Ord for Spot {
    ghost cmp = { λ a b. slice_cmp nat_cmp a b };

    ghost total = { nat_list_cmp_total };

    ghost matches_partial_cmp = { λ a b. refl };

    ghost matches_eq = { λ a b. texts_ties a b };

    fn cmp(&self, other: &Self) -> Ordering {
        self.owner
            .cmp(&other.owner)
            .then(self.name.cmp(&other.name))
    }
}

impl Hash for Spot {
    ghost hash_input = { λ s. le_bytes 2 (slice_index s 0) ∷ drop 1 s ∷ [] };

    ghost respects_eq = { (same_Alike (λ s. le_bytes 2 (slice_index s 0) ∷ drop 1 s ∷ []) bytes_decides).fed };

    fn hash<H: Hasher>(&self, state: &mut H) {
        state.write_u16(self.owner);
        state.write(self.name.as_bytes());
    }
}

/// The place of an array: the word of its root, and its numbers of entries and pieces.
#[derive(Clone, Copy, Debug, PartialEq, Eq)]
pub struct Place {
    pub root: Ref,
    pub entries: u64,
    pub pieces: u64,
}

impl Model for Place {
    ghost use Rattle.judy_directory.specs.Places.{Stand};

    ghost Value = { Stand };

    ghost view = { λ p. record { root = p.root; entries = p.entries; pieces = p.pieces } };

    ghost inverse = { λ p. record { root = p.root; entries = p.entries; pieces = p.pieces } };
}

impl Place {
    /// The place of no array.
    pub fn nothing() -> Place
        ensures { result ≡ record { root = 0; entries = 0; pieces = 0 } }
    {
        Place {
            root: Ref::EMPTY,
            entries: 0,
            pieces: 0,
        }
    }

    /// Whether there is an array.
    pub fn is_nothing(&self) -> bool
        ensures { result ≡ nat_eq self.now.root 0 }
    {
        self.root.word() == 0
    }
}
