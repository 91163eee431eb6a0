//! One tenant's whole store in plain, slow sorted vectors. Tests compare other stores with it.
ghost use Rattle.std.specs.Prelude.{◌≡◌, ◌+◌, ◌&&◌, IfOk, OnErr, nat_le, nat_lt};
ghost use Rattle.judy_model.specs.Tenant.{new_pieces, no_arrays, pieces, used, allowed_step, step};
ghost use Rattle.judy_model.specs.declared.quotas.Right.TheVariants.{Change};
ghost use Rattle.judy_model.specs.Solo.{MayLackMemory};
ghost use Rattle.judy_reference.specs.Store.{IsKept};

mod arrays;
mod byte_walks;
mod bytes;
mod content;
mod directory;
mod fills;
mod long;
mod one;
mod pops;
mod replies;
mod shared;
mod string;
mod walks;
mod writes;

use self::bytes::bytes_step;
use self::directory::Directory;
use self::long::long_step;
use self::one::one_step;
use self::string::string_step;
use judy_model::{Call, OwnedKey, Quota, Reply, ReplyRoom, Right};
use std::alloc::{AllocError, Global};
use std::marker::Model;

/// The arrays of one tenant, by kind.
#[derive(Drop)]
pub struct Store {
    one: Directory<u64>,
    long: Directory<u64>,
    string: Directory<OwnedKey>,
    bytes: Directory<OwnedKey>,
}

impl Model for Store {
    ghost use Rattle.std.specs.Prelude.{◌<◌, ◌+◌, ◌^◌};
    ghost use Rattle.judy_model.specs.Tenant.{State, entries_in, pieces_in};
    ghost use Rattle.judy_model.specs.Pieces.{word_pieces, string_pieces};

    ghost Value = { State };

    ghost view = { λ s. record { one = s.one; long = s.long; string = s.string; bytes = s.bytes } };

    // The number of entries and the number of pieces are words.
    ghost invariant = { λ s.
        (entries_in s.one + entries_in s.long + entries_in s.string + entries_in s.bytes < 2 ^ 64)
        × (pieces_in word_pieces s.one + pieces_in word_pieces s.long
        + pieces_in string_pieces s.string + pieces_in string_pieces s.bytes < 2 ^ 64) };
}

impl Store {
    /// A store without entries.
    pub fn new(alloc: Global) -> Store
        ensures { result ≡ no_arrays }
    {
        Store {
            one: Directory::new(alloc),
            long: Directory::new(alloc),
            string: Directory::new(alloc),
            bytes: Directory::new(alloc),
        }
    }

    /// The number of entries of all arrays.
    pub fn used(&self) -> u64
        ensures value { result ≡ used self.now }
        ensures kept { IsKept self.now }
    {
        self.one.len() + self.long.len() + self.string.len() + self.bytes.len()
    }

    /// The number of pieces of all arrays.
    pub fn pieces(&self) -> u64
        ensures { result ≡ pieces self.now }
    {
        self.one.len() + self.long.len() + self.string.pieces() + self.bytes.pieces()
    }

    /// Answers a call under this right, for a tenant with this quota. A string that is found is
    /// written to `found`. `Err` means out of memory for a new entry within the quota; nothing
    /// changed.
    pub fn step<'a>(
        &mut self,
        alloc: Global,
        right: Right,
        quota: Quota,
        call: &Call<'_>,
        found: &'a mut ReplyRoom,
    ) -> Result<Reply<'a>, AllocError>
        ensures ok { IfOk result (λ reply. step right quota self.old call.now ≡ (reply, self.new)) }
        ensures unchanged { OnErr result (self.new ≡ self.old) }
        ensures lacks { OnErr result
            (MayLackMemory quota self.old (record { right = right; call = call.now })) }
    {
        if call.is_read_only(right) {
            return Ok(right.refusal());
        }
        self.allowed_step(alloc, quota, call, found)
    }

    /// Answers a call that the right allows.
    fn allowed_step<'a>(
        &mut self,
        alloc: Global,
        quota: Quota,
        call: &Call<'_>,
        found: &'a mut ReplyRoom,
    ) -> Result<Reply<'a>, AllocError>
        ensures ok { IfOk result
            (λ reply. allowed_step quota self.old call.now ≡ (reply, self.new)) }
        ensures unchanged { OnErr result (self.new ≡ self.old) }
        ensures lacks { OnErr result
            (MayLackMemory quota self.old (record { right = Change; call = call.now })) }
    {
        let used = self.used();
        let pieces = self.pieces();
        let room = has_room(used, pieces, quota, call);
        match call {
            Call::One(name, call) => one_step(alloc, &mut self.one, room, name, call, found),
            Call::Long(name, call) => long_step(alloc, &mut self.long, room, name, call, found),
            Call::Str(name, call) => string_step(alloc, &mut self.string, room, name, call, found),
            Call::Bytes(name, call) => bytes_step(alloc, &mut self.bytes, room, name, call, found),
            Call::Intersect(name, other, x, n) => {
                let (entries, others) = (self.one.content(name), self.one.content(other));
                Ok(shared::intersection(entries, others, *x, *n, &mut found.listing))
            }
            Call::Names(from, n) => Ok(arrays::names(self, from, *n, &mut found.listing)),
            Call::Used => Ok(Reply::Used(used, quota.entries, pieces, quota.pieces)),
        }
    }
}

/// Whether the quota of a tenant with this many entries and pieces has room for a new entry of the
/// call.
fn has_room(used: u64, pieces: u64, quota: Quota, call: &Call<'_>) -> bool
    ensures { result ≡ (nat_lt used quota.entries
        && nat_le (pieces + new_pieces call.now) quota.pieces) }
{
    used < quota.entries && (pieces <= quota.pieces && call.new_pieces() <= quota.pieces - pieces)
}
