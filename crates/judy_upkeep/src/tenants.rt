//! Which made-up tenant stands for which tenant of a journal.
ghost use Rattle.std.specs.Prelude.{◌≡◌, ◌↔◌, Some, None, IfOk, IfSome, IsTrue, slice_get};
ghost use Rattle.judy_upkeep.specs.Tenants.{Admits, IsAt, IsNumbered, Stands, with_name};

use crate::asking::TENANTS;
use judy_model::Name;
use judy_recovery::Reason;
use std::alloc::Global;

/// The names of the tenants that have records, each at the number of a made-up tenant.
#[derive(Drop)]
pub struct Tenants {
    names: Vec<Option<Name>>,
    /// The number that was asked for last.
    last: usize,
}

/// Whether this is the name at a number.
fn is_name(at: &Option<Name>, name: &[u8]) -> bool
    ensures { IsTrue result ↔ (at.now ≡ Some name.now) }
{
    match at {
        Some(other) => other.as_bytes() == name,
        None => false,
    }
}

impl Tenants {
    /// Nobody yet.
    pub fn new(alloc: Global) -> Tenants {
        Tenants {
            names: Vec::new(alloc),
            last: 0,
        }
    }

    /// Whether this tenant has this number.
    fn has(&self, number: usize, name: &[u8]) -> bool
        ensures { IsTrue result ↔ IsAt self.now.names.items number name.now }
    {
        match self.names.get(number) {
            Some(at) => is_name(at, name),
            None => false,
        }
    }

    /// The number of the tenant with this name.
    pub fn find(&self, name: &[u8]) -> Option<usize>
        ensures { Stands self.now.names.items name.now result }
    {
        if self.has(self.last, name) {
            return Some(self.last);
        }
        for number in 0..self.names.len() {
            if self.has(number, name) {
                return Some(number);
            }
        }
        None
    }

    /// The first number that nobody has.
    fn vacant(&self) -> Option<usize>
        ensures { IfSome result (λ number. slice_get self.now.names.items number ≡ Some None) }
    {
        for number in 0..self.names.len() {
            if self.names[number].is_none() {
                return Some(number);
            }
        }
        None
    }

    /// Gives a number that was given before to somebody else, or to nobody.
    fn put(&mut self, number: usize, name: Option<Name>)
        ensures { self.new.names.items ≡ with_name self.old.names.items number name }
    {
        if let Some(at) = self.names.get_mut(number) {
            *at = name;
        }
    }

    /// Gives a new tenant a number.
    fn admit(&mut self, name: &[u8]) -> Result<usize, Reason>
        ensures { IfOk result (λ number. Admits self.old.names.items name.now number self.new.names.items) }
    {
        let Some(name) = Name::read(name) else {
            return Err(Reason::Record);
        };
        if let Some(number) = self.vacant() {
            self.put(number, Some(name));
            return Ok(number);
        }
        let number = self.names.len();
        if number >= TENANTS {
            return Err(Reason::Tenants);
        }
        match self.names.push(Some(name)) {
            Ok(()) => Ok(number),
            Err(_) => Err(Reason::Memory),
        }
    }

    /// The number of the tenant with this name, who gets one if need be.
    pub fn number_of(&mut self, name: &[u8]) -> Result<usize, Reason>
        ensures { IfOk result (λ number. IsNumbered self.old.names.items name.now number self.new.names.items) }
    {
        if let Some(number) = self.find(name) {
            self.last = number;
            return Ok(number);
        }
        let number = self.admit(name)?;
        self.last = number;
        Ok(number)
    }

    /// Nobody has this number any more.
    pub fn leave(&mut self, number: usize)
        ensures { self.new.names.items ≡ with_name self.old.names.items number None }
    {
        self.put(number, None);
    }

    /// How many numbers were given.
    pub fn count(&self) -> usize {
        self.names.len()
    }

    /// The name of the tenant with this number.
    pub fn name(&self, number: usize) -> Option<Name>
        ensures { IfSome result (λ name. IsAt self.now.names.items number name) }
    {
        match self.names.get(number) {
            Some(Some(name)) => Some(name.copied()),
            _ => None,
        }
    }
}
