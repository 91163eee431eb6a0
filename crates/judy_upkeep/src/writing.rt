//! Writes the entries of arrays to a snapshot.
ghost use Rattle.std.specs.Prelude.{codes, IfOk, OnOk};
ghost use Rattle.judy_upkeep.specs.Lines.{from_first as from_first_lem, insertion_text, look_text, next_text};
ghost use Rattle.judy_upkeep.specs.Output.{Adds};
ghost use Rattle.judy_upkeep.specs.Walking.{Walks};

use crate::asking::Came;
use crate::kinds::Array;
use crate::lines::{
    KeyText, Text, from_first, put, write_index, write_insertion, write_key, write_look, write_next,
};
use crate::output::Output;
use crate::playing::Playing;
use arrayvec::ArrayVec;
use judy_model::Name;
use judy_protocol::Served;
use judy_recovery::Reason;
use std::fs::Files;

/// A walk over the entries of the arrays of one tenant after another.
#[derive(Drop)]
pub struct Walk {
    key: KeyText,
    line: Text,
}

impl Walk {
    /// No entry yet.
    pub fn new() -> Walk {
        Walk {
            key: ArrayVec::new(),
            line: ArrayVec::new(),
        }
    }

    /// Looks for an entry by this walk's line. Returns its value, and then the walk has its key. None if there is
    /// none.
    fn step<S: Served>(
        &mut self,
        playing: &mut Playing<S>,
        tenant: usize,
    ) -> Result<Option<u64>, Reason>
        ensures { IfOk result (λ found. Walks S.who S.made playing.old.entries.speakers.items tenant
            self.old.line.items playing.old.entries.last.items
            playing.new.entries.last.items self.old.key.items found self.new.key.items playing.old.entries.service
            playing.new.entries.service) }
    {
        match playing.entries.ask(tenant, self.line.as_slice())? {
            Came::At(index, value) => {
                write_index(index, &mut self.key);
                Ok(Some(value))
            }
            Came::AtKey(value) => {
                write_key(playing.entries.key_found(), &mut self.key);
                Ok(Some(value))
            }
            Came::Nothing => Ok(None),
            Came::Value(_) | Came::Count(_) => Err(Reason::Record),
        }
    }

    /// The first entry of an array.
    fn first<S: Served>(
        &mut self,
        playing: &mut Playing<S>,
        tenant: usize,
        array: &Array,
    ) -> Result<Option<u64>, Reason>
        ensures { IfOk result (λ found. Walks S.who S.made playing.old.entries.speakers.items tenant
            (look_text array.now (codes "F") (from_first_lem array.now.kind)) playing.old.entries.last.items
            playing.new.entries.last.items (from_first_lem array.now.kind) found self.new.key.items
            playing.old.entries.service playing.new.entries.service) }
    {
        self.key.clear();
        put(&mut self.key, from_first(array.kind));
        write_look(array, b"F", self.key.as_slice(), &mut self.line);
        self.step(playing, tenant)
    }

    /// Writes the entry with this walk's key, and looks for the next one.
    fn write_one<S: Served, F: Files>(
        &mut self,
        playing: &mut Playing<S>,
        output: &mut Output<F>,
        tenant: usize,
        name: &Name,
        array: &Array,
        value: u64,
    ) -> Result<Option<u64>, Reason>
        ensures added { OnOk result (Adds name.now (insertion_text array.now self.old.key.items value)
            output.old output.new) }
        ensures next { IfOk result (λ found. Walks S.who S.made playing.old.entries.speakers.items tenant
            (next_text array.now self.old.key.items) playing.old.entries.last.items
            playing.new.entries.last.items self.old.key.items found self.new.key.items playing.old.entries.service
            playing.new.entries.service) }
    {
        write_insertion(array, self.key.as_slice(), value, &mut self.line);
        output.add(name.as_bytes(), self.line.as_slice())?;
        write_next(array, self.key.as_slice(), &mut self.line);
        self.step(playing, tenant)
    }

    /// Writes all entries of an array. Returns how many.
    fn write_entries<S: Served, F: Files>(
        &mut self,
        playing: &mut Playing<S>,
        output: &mut Output<F>,
        tenant: usize,
        name: &Name,
        array: &Array,
    ) -> Result<u64, Reason> {
        let mut found = self.first(playing, tenant, array)?;
        for count in 0..u64::MAX {
            let Some(value) = found else {
                return Ok(count);
            };
            found = self.write_one(playing, output, tenant, name, array, value)?;
        }
        Err(Reason::Record)
    }

    /// Writes all entries of an array, and removes them. There were exactly those that were written.
    fn write_array<S: Served, F: Files>(
        &mut self,
        playing: &mut Playing<S>,
        output: &mut Output<F>,
        tenant: usize,
        name: &Name,
        array: &Array,
    ) -> Result<(), Reason> {
        let written = self.write_entries(playing, output, tenant, name, array)?;
        if playing.free(tenant, array)? != written {
            return Err(Reason::Record);
        }
        Ok(())
    }

    /// Writes all entries of a tenant, and removes them.
    fn write_tenant<S: Served, F: Files>(
        &mut self,
        playing: &mut Playing<S>,
        output: &mut Output<F>,
        tenant: usize,
        name: &Name,
    ) -> Result<(), Reason> {
        for _ in 0..u64::MAX {
            let Some(array) = playing.entries.first_array(tenant)? else {
                return Ok(());
            };
            self.write_array(playing, output, tenant, name, &array)?;
        }
        Err(Reason::Record)
    }

    /// Writes all entries of all tenants, and removes them.
    pub fn write_all<S: Served, F: Files>(
        &mut self,
        playing: &mut Playing<S>,
        output: &mut Output<F>,
    ) -> Result<(), Reason> {
        for tenant in 0..playing.tenants.count() {
            if let Some(name) = playing.tenants.name(tenant) {
                self.write_tenant(playing, output, tenant, &name)?;
            }
        }
        Ok(())
    }
}
