//! Names that records name and that the table lacks.
ghost use Rattle.std.specs.Prelude.{◌≡◌, ◌∷◌, [], MatchOption, Some, if◌then◌else◌, slice_get};
ghost use Rattle.judy_model.specs.Grammar.{fields_of};
ghost use Rattle.judy_server.specs.Tally.{can_note, is_among, with_name, without_names};

use arrayvec::ArrayVec;
use judy_model::Name;
use judy_protocol::next_field;
use std::marker::Model;

/// The most names that are absent at once. A table has no more tenants.
pub const ABSENT_LIMIT: usize = 64;

/// The names of tenants that left: the first one, and the fields that are the others.
#[derive(Drop)]
pub struct Left<'a> {
    /// The first name.
    pub first: &'a [u8],
    /// The other names, with spaces between them.
    pub others: &'a [u8],
}

impl<'a> Model for Left<'a> {
    ghost use Rattle.std.specs.Prelude.{ℕ, List, ◌∷◌};
    ghost use Rattle.judy_model.specs.Grammar.{fields_of};

    ghost Value = { List (List ℕ) };

    ghost view = { λ left. left.first.now ∷ fields_of left.others.now };
}

/// Whether a name is among these fields.
fn has_field(fields: &[u8], name: &[u8]) -> bool
    ensures { result ≡ is_among (fields_of fields.now) name.now }
{
    let mut rest = fields;
    while let Some((field, after)) = next_field(rest) {
        if field == name {
            return true;
        }
        rest = after;
    }
    false
}

impl<'a> Left<'a> {
    /// Whether a name is among these.
    pub fn has(&self, name: &[u8]) -> bool
        ensures { result ≡ is_among self.now name.now }
    {
        self.first == name || has_field(self.others, name)
    }
}

/// A name that is absent.
#[derive(Drop)]
struct Lacked {
    name: Name,
}

impl Model for Lacked {
    ghost use Rattle.std.specs.Prelude.{ℕ, List};

    ghost Value = { List ℕ };

    ghost view = { λ lacked. lacked.name };
}

/// An unused place has no name.
impl Default for Lacked {
    fn default() -> Lacked {
        Lacked {
            name: Name::of(b""),
        }
    }
}

/// The names that records name and that the table lacks, each once.
#[derive(Drop)]
pub struct Absent {
    names: ArrayVec<Lacked, ABSENT_LIMIT>,
}

impl Model for Absent {
    ghost use Rattle.std.specs.Prelude.{ℕ, List};

    ghost Value = { List (List ℕ) };

    ghost view = { λ absent. absent.names.items };
}

impl Absent {
    /// None yet.
    pub fn new() -> Absent
        ensures { result ≡ [] }
    {
        Absent {
            names: ArrayVec::new(),
        }
    }

    /// Whether a name is among these.
    fn has(&self, name: &[u8]) -> bool
        ensures { result ≡ is_among self.now name.now }
    {
        for lacked in self.names.iter() {
            if lacked.name.as_bytes() == name {
                return true;
            }
        }
        false
    }

    /// Notes a name, once. False: there is no room for it.
    pub fn note(&mut self, name: Name) -> bool
        ensures noted { result ≡ can_note self.old name }
        ensures names { self.new ≡ (if result then with_name self.old name else self.old) }
    {
        self.has(name.as_bytes()) || self.names.try_push(Lacked { name }).is_ok()
    }

    /// Notes names no more.
    pub fn forget(&mut self, left: &Left<'_>)
        ensures { self.new ≡ without_names self.old left.now }
    {
        self.names
            .retain(|lacked| !left.has(lacked.name.as_bytes()));
    }

    /// The first of them, if there is one.
    pub fn first(&self) -> Option<Name>
        ensures { MatchOption result (self.now ≡ []) (λ name. slice_get self.now 0 ≡ Some name) }
    {
        let lacked = self.names.first()?;
        Some(lacked.name.copied())
    }
}
