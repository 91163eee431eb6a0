//! Plays the records of a journal to a service of made-up tenants.
ghost use Rattle.std.specs.Prelude.{◌≡◌, ◌<◌, ◌∷◌, ℕ, List, Ok, codes, refl, IfOk, OnOk};
ghost use Rattle.judy_protocol.specs.Plain.{spaced_more};
ghost use Rattle.judy_upkeep.specs.Asking.{Gives};
ghost use Rattle.judy_upkeep.specs.Leaving.{AreNames};
ghost use Rattle.judy_upkeep.specs.Lines.{call_text};
ghost use Rattle.judy_upkeep.specs.Playing.{AreLeft, ArePlayed, IsEmptied, Leaves, Plays, played-then};

use crate::asking::{Asking, Came};
use crate::kinds::Array;
use crate::leaving::{cut_name, others_gone};
use crate::lines::{Text, write_call};
use crate::tenants::Tenants;
use arrayvec::ArrayVec;
use judy_journal::read_record;
use judy_model::name_ok;
use judy_programs::Opens;
use judy_protocol::{Served, cut_line};
use judy_recovery::{Halt, Player, Reason};
use std::alloc::Global;

/// What the records of a journal have made.
#[derive(Drop)]
pub struct Playing<S: Served> {
    /// The entries of all tenants.
    pub entries: Asking<S>,
    /// The names of the tenants.
    pub tenants: Tenants,
    line: Text,
}

impl<S: Opens + Drop> Playing<S> {
    /// No record was played.
    pub fn open(alloc: Global, secret: &[u8]) -> Result<Playing<S>, Reason> {
        let entries = Asking::open(alloc, secret)?;
        Ok(Playing {
            entries,
            tenants: Tenants::new(alloc),
            line: ArrayVec::new(),
        })
    }
}

impl<S: Served> Playing<S> {
    /// Removes all entries of an array that has some. Returns how many there were.
    pub fn free(&mut self, tenant: usize, array: &Array) -> Result<u64, Reason>
        ensures freed { IfOk result (λ count. Gives S.who S.made self.old.entries.speakers.items tenant
            (call_text array.now (codes "FA")) (Ok (Came.Count count)) self.old.entries.service
            self.new.entries.service) }
        ensures some { IfOk result (λ count. 0 < count) }
        ensures speakers { self.new.entries.speakers.items ≡ self.old.entries.speakers.items }
        ensures names { self.new.tenants.names.items ≡ self.old.tenants.names.items }
    {
        write_call(array, b"FA", &mut self.line);
        match self.entries.ask(tenant, self.line.as_slice())? {
            Came::Count(0) => Err(Reason::Record),
            Came::Count(count) => Ok(count),
            _ => Err(Reason::Record),
        }
    }

    /// Removes all arrays of a tenant.
    fn free_all(&mut self, tenant: usize) -> Result<(), Reason>
        ensures freed { OnOk result (IsEmptied S.who S.made self.old.entries.speakers.items tenant
            self.old.entries.service self.new.entries.service) }
        ensures speakers { self.new.entries.speakers.items ≡ self.old.entries.speakers.items }
        ensures names { self.new.tenants.names.items ≡ self.old.tenants.names.items }
    {
        for _ in 0..u64::MAX {
            let Some(array) = self.entries.first_array(tenant)? else {
                return Ok(());
            };
            self.free(tenant, &array)?;
        }
        Err(Reason::Record)
    }

    /// A tenant leaves. One that has no record has nothing to take along.
    fn leave(&mut self, name: &[u8]) -> Result<(), Reason>
        ensures left { OnOk result (Leaves S.who S.made self.old.entries.speakers.items name.now
            self.old.entries.service self.old.tenants.names.items self.new.entries.service
            self.new.tenants.names.items) }
        ensures speakers { self.new.entries.speakers.items ≡ self.old.entries.speakers.items }
    {
        if !name_ok(name) {
            return Err(Reason::Record);
        }
        let Some(tenant) = self.tenants.find(name) else {
            return Ok(());
        };
        self.free_all(tenant)?;
        self.tenants.leave(tenant);
        Ok(())
    }

    /// Tenants leave: the first one, and those of the names behind spaces.
    fn leave_all(&mut self, first: &[u8], others: &[u8]) -> Result<(), Reason>
        requires { AreNames others.now }
        ensures left { OnOk result ((names : List (List ℕ)) × (others.now ≡ spaced_more names)
            × AreLeft S.who S.made self.old.entries.speakers.items (first.now ∷ names)
            self.old.entries.service self.old.tenants.names.items self.new.entries.service
            self.new.tenants.names.items) }
        ensures speakers { self.new.entries.speakers.items ≡ self.old.entries.speakers.items }
    {
        self.leave(first)?;
        let mut rest = others;
        while let Some((name, after)) = cut_name(rest) {
            self.leave(name)?;
            rest = after;
        }
        Ok(())
    }

    /// Plays a record.
    fn play_record(&mut self, record: &[u8]) -> Result<(), Reason>
        ensures played { OnOk result (Plays S.who S.made self.old.entries.speakers.items record.now
            self.old.entries.service self.old.tenants.names.items self.new.entries.service
            self.new.tenants.names.items) }
        ensures speakers { self.new.entries.speakers.items ≡ self.old.entries.speakers.items }
    {
        let Some((name, request)) = read_record(record) else {
            return Err(Reason::Record);
        };
        if let Some(others) = others_gone(request) {
            return self.leave_all(name, others);
        }
        let tenant = self.tenants.number_of(name)?;
        self.entries.change(tenant, request)
    }
}

impl<S: Served> Player for Playing<S> {
    /// The records were played, one after another, and nothing else was done.
    ghost plays = { λ before records after.
        (after.entries.speakers.items ≡ before.entries.speakers.items)
        × ArePlayed S.who S.made before.entries.speakers.items records before.entries.service
        before.tenants.names.items after.entries.service after.tenants.names.items };

    fn play(&mut self, records: &[u8]) -> Result<(), Halt> {
        let mut rest = records;
        let mut played = 0;
        while let Some((record, after)) = cut_line(rest) {
            match self.play_record(record) {
                Ok(()) => {}
                Err(why) => return Err(Halt { played, why }),
            }
            played = usize::saturating_add(played, 1);
            rest = after;
        }
        Ok(())
    }

    ghost rests = { λ _. (refl, (refl, refl)) };

    ghost joins = { λ before middle after records more first next. played-then S.who S.made
        before.entries.speakers.items middle.entries.speakers.items after.entries.speakers.items records more
        before.entries.service before.tenants.names.items middle.entries.service middle.tenants.names.items
        after.entries.service after.tenants.names.items first.0 first.1 next.0 next.1 };
}
