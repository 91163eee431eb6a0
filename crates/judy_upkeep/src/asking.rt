//! Asks a service of made-up tenants for its entries.
ghost use Rattle.std.specs.Prelude.{◌≡◌, ◌≤◌, length, IfOk};
ghost use Rattle.std.specs.List.{All};
ghost use Rattle.judy_protocol.specs.Services.{IsAsked, IsKnown};
ghost use Rattle.judy_model.specs.Grammar.{fields_of};
ghost use Rattle.judy_upkeep.specs.Arrays.{HasTold};
ghost use Rattle.judy_upkeep.specs.Asking.{HasAsked, HasChanged, came_at, entry_in, key_in, listed_came};

use crate::kinds::{Array, array_of};
use crate::lines::put;
use arrayvec::ArrayVec;
use itoa::Buffer;
use judy_model::{ArraysFrom, Call, KEY_LIMIT, Key, Reply, ReplyRoom};
use judy_programs::Opens;
use judy_protocol::{Line, Served, key, next_field, next_number, read_line};
use judy_recovery::Reason;
use std::alloc::{AllocError, Global};

/// The most tenants that a table may have.
pub const TENANTS: usize = 64;

/// The token of each tenant here. Nobody else is served.
const TOKEN: &[u8; 1] = b"x";

/// What each tenant's table has: the digest of the token, and the greatest quotas.
const GREATEST: &str =
    "\nsha256 = \"2d711642b726b04401627ca9fbac32f5c8530fb1903cc4db02258717921a4881\"\nquota = 16777216\npieces = 2113929216\n";

/// What came of a call.
#[derive(Clone, Copy, Debug, PartialEq, Eq)]
pub enum Came {
    /// The entry has this value; 0 if it is one of a set.
    Value(u64),
    /// This index was found, with this value; 0 if it is one of a set.
    At(u64, u64),
    /// A key was found, with this value. It is the one that was found last.
    AtKey(u64),
    /// This number of entries.
    Count(u64),
    /// There is no such entry.
    Nothing,
}

/// A service of 64 made-up tenants, who have the token `x`, and who all have logged in.
#[derive(Drop)]
pub struct Asking<S: Served> {
    alloc: Global,
    service: S,
    speakers: Vec<S::Speaker>,
    key: [u8; KEY_LIMIT],
    /// The room for the key of a reply.
    found: ReplyRoom,
    /// The key that was found last.
    last: ArrayVec<u8, KEY_LIMIT>,
    ghost known: { All (λ s. IsKnown (S.seen service).speakers (S.who s)) speakers.items },
}

/// The value and the key of the one entry in the text of a reply. The key's bytes are put into the room.
fn entry_in<'a>(text: &[u8], room: &'a mut [u8; KEY_LIMIT]) -> Option<(u64, Key<'a>)>
    ensures { result ≡ entry_in (fields_of text.now) }
{
    let (value, after_value) = next_number(text)?;
    let (field, after_key) = next_field(after_value)?;
    if next_field(after_key).is_some() {
        return None;
    }
    Some((value, key(field, room)?))
}

/// What came of a call that asks for one entry, by how many its reply has, and their text.
fn came_with(count: u16, text: &[u8], room: &mut [u8; KEY_LIMIT]) -> Result<Came, Reason>
    ensures { result ≡ listed_came count (entry_in (fields_of text.now)) }
{
    if count == 0 {
        return Ok(Came::Nothing);
    }
    match entry_in(text, room) {
        Some((value, _)) => Ok(Came::AtKey(value)),
        None => Err(Reason::Record),
    }
}

/// What came of a call, by its reply. The room is for a key in it.
fn came_of(reply: &Reply<'_>, room: &mut [u8; KEY_LIMIT]) -> Result<Came, Reason>
    ensures { result ≡ came_at reply.now }
{
    match reply {
        Reply::Int(true) => Ok(Came::Value(0)),
        Reply::Int(false) => Ok(Came::Nothing),
        Reply::Value(value) => Ok(Came::Value(*value)),
        Reply::Null => Ok(Came::Nothing),
        Reply::Index(index) => Ok(Came::At(*index, 0)),
        Reply::Count(count) => Ok(Came::Count(*count)),
        Reply::ValueAt(value, index) => Ok(Came::At(*index, *value)),
        Reply::ValueKey(value, _) => Ok(Came::AtKey(*value)),
        Reply::Entries(count, text) => came_with(*count, text.as_bytes(), room),
        Reply::Used(_, _, _, _) | Reply::Intersection(_, _, _) => Err(Reason::Record),
        Reply::Full => Err(Reason::Full),
        Reply::ReadOnly | Reply::Frozen => Err(Reason::Full),
        Reply::Memory => Err(Reason::Memory),
    }
}

/// Keeps a key as the one that was found last.
fn keep(key: &Key<'_>, last: &mut ArrayVec<u8, KEY_LIMIT>)
    ensures { last.new.items ≡ key.now }
{
    last.clear();
    put(last, key.as_bytes());
}

/// Keeps the key that a reply shows, if it shows one. The room is for its bytes.
fn keep_key(reply: &Reply<'_>, room: &mut [u8; KEY_LIMIT], last: &mut ArrayVec<u8, KEY_LIMIT>)
    ensures { last.new.items ≡ key_in reply.now last.old.items }
{
    match reply {
        Reply::ValueKey(_, key) => keep(key, last),
        Reply::Entries(_, text) => {
            if let Some((_, key)) = entry_in(text.as_bytes(), room) {
                keep(&key, last);
            }
        }
        _ => {}
    }
}

/// The name of the made-up tenant with this number.
fn name_of(number: usize) -> ArrayVec<u8, 32> {
    let mut name = ArrayVec::new();
    let mut digits = Buffer::new();
    let _fits = name.try_extend_from_slice(b"t");
    let _fits = name.try_extend_from_slice(digits.format(number as u64).as_bytes());
    name
}

/// Puts a tenant behind the others.
fn put_tenant(text: &mut Vec<u8>, name: &[u8]) -> Result<(), AllocError> {
    text.extend_from_slice(b"[\"")?;
    text.extend_from_slice(name)?;
    text.extend_from_slice(b"\"]")?;
    text.extend_from_slice(GREATEST.as_bytes())?;
    Ok(())
}

/// The text of a table with all made-up tenants.
fn table(alloc: Global) -> Result<Vec<u8>, AllocError> {
    let mut text = Vec::new(alloc);
    for number in 0..TENANTS {
        put_tenant(&mut text, name_of(number).as_slice())?;
    }
    Ok(text)
}

/// Logs one made-up tenant in.
fn log_in<S: Served>(service: &S, number: usize) -> Result<S::Speaker, Reason>
    ensures { IfOk result (λ s. IsKnown (S.seen service.now).speakers (S.who s)) }
{
    match service.login(name_of(number).as_slice(), TOKEN) {
        Some(speaker) => Ok(speaker),
        None => Err(Reason::Tenant),
    }
}

/// Logs all made-up tenants in.
fn log_in_all<S: Served>(alloc: Global, service: &S) -> Result<Vec<S::Speaker>, Reason>
    ensures { IfOk result (λ v. All (λ s. IsKnown (S.seen service.now).speakers (S.who s)) v.items) }
{
    let mut speakers = Vec::new(alloc);
    for number in 0..TENANTS {
        let speaker = log_in(service, number)?;
        if speakers.push(speaker).is_err() {
            return Err(Reason::Memory);
        }
    }
    Ok(speakers)
}

impl<S: Opens + Drop> Asking<S> {
    /// A new service. Nobody has an entry.
    pub fn open(alloc: Global, secret: &[u8]) -> Result<Asking<S>, Reason> {
        let Ok(table) = table(alloc) else {
            return Err(Reason::Memory);
        };
        let Ok(service) = S::open(alloc, secret, table.as_slice()) else {
            return Err(Reason::Memory);
        };
        let speakers = log_in_all(alloc, &service)?;
        Ok(Asking {
            alloc,
            service,
            speakers,
            key: [0; KEY_LIMIT],
            found: ReplyRoom::new(),
            last: ArrayVec::new(),
        })
    }

    /// The words of all blocks of all arrays.
    pub fn live_words(&self) -> u64 {
        self.service.live_words()
    }
}

impl<S: Served> Asking<S> {
    /// Makes the call that a line of this tenant asks for.
    pub fn ask(&mut self, tenant: usize, line: &[u8]) -> Result<Came, Reason>
        ensures asked { HasAsked S.who S.made self.old.speakers.items tenant line.now result
            self.old.last.items self.new.last.items self.old.service self.new.service }
        ensures speakers { self.new.speakers.items ≡ self.old.speakers.items }
    {
        let Ok(Line::Call(call)) = read_line(line, &mut self.key) else {
            return Err(Reason::Record);
        };
        let Some(speaker) = self.speakers.get(tenant) else {
            return Err(Reason::Tenant);
        };
        let reply = self
            .service
            .call(self.alloc, *speaker, &call, &mut self.found);
        keep_key(&reply, &mut self.key, &mut self.last);
        came_of(&reply, &mut self.key)
    }

    /// Makes the call that a line of this tenant asks for, which must be one that may change an array.
    pub fn change(&mut self, tenant: usize, line: &[u8]) -> Result<(), Reason>
        ensures changed { HasChanged S.who S.made self.old.speakers.items tenant line.now result
            self.old.service self.new.service }
        ensures speakers { self.new.speakers.items ≡ self.old.speakers.items }
        ensures last { self.new.last.items ≡ self.old.last.items }
    {
        let Ok(Line::Call(call)) = read_line(line, &mut self.key) else {
            return Err(Reason::Record);
        };
        if !call.changes() {
            return Err(Reason::Record);
        }
        let Some(speaker) = self.speakers.get(tenant) else {
            return Err(Reason::Tenant);
        };
        let reply = self
            .service
            .call(self.alloc, *speaker, &call, &mut self.found);
        match came_of(&reply, &mut self.key) {
            Ok(_) => Ok(()),
            Err(why) => Err(why),
        }
    }

    /// The first array of this tenant that has entries, in the order of kinds and names. None if there is none.
    pub fn first_array(&mut self, tenant: usize) -> Result<Option<Array>, Reason>
        ensures told { HasTold S.who S.made self.old.speakers.items tenant result self.old.service
            self.new.service }
        ensures speakers { self.new.speakers.items ≡ self.old.speakers.items }
        ensures last { self.new.last.items ≡ self.old.last.items }
    {
        let call = Call::Names(ArraysFrom::First, 1);
        let Some(speaker) = self.speakers.get(tenant) else {
            return Err(Reason::Tenant);
        };
        let reply = self
            .service
            .call(self.alloc, *speaker, &call, &mut self.found);
        array_of(&reply)
    }

    /// The key that was found last.
    pub fn key_found(&self) -> &[u8]
        ensures key { result.now ≡ self.now.last.items }
        ensures short { length result.now ≤ KEY_LIMIT }
    {
        self.last.as_slice()
    }
}
