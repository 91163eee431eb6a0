//! What a service counts: lines by what they ask for, replies by their kind, and refused log-ins, lines
//! and `FULL` by tenant. The counts saturate.
ghost use Rattle.std.specs.Prelude.{◌≡◌, ◌<◌, if◌then◌else◌, option_map, slice_index, slice_set};
ghost use Rattle.std.specs.Ordering.{eq_by_cmp};
ghost use Rattle.judy_arena.specs.Blocks.{count_up};
ghost use Rattle.judy_model.specs.Contents.{string_order};
ghost use Rattle.judy_protocol.specs.Talks.{as_heard};
ghost use Rattle.judy_server.specs.Tally.{bumped, call_place, cleared, no_counts, refused_at, refused_name, refuses_login, reply_place, with_line};
ghost use Rattle.judy_server.specs.Tally.{with_share};

use crate::absent::Absent;
use crate::calls::{HELLO, NO_REQUEST, PING, place_of_call};
use judy_model::COMMANDS;
use judy_protocol::{Line, Refusal};
use judy_table::TenantId;

/// How many things a line can ask for: `AUTH`, `QUIT`, `USED`, the commands, `PING`, `HELLO`, and nothing.
pub const CALLS: usize = COMMANDS + 7;

/// How many kinds of replies there are.
pub const KINDS: usize = 10;

/// How many places for tenants there are.
pub const PLACES: usize = 128;

/// How often each thing happened since the start.
#[derive(Drop)]
pub struct Tally {
    /// Lines, by what they ask for.
    pub lines: [u64; CALLS],
    /// Replies, by their kind.
    pub replies: [u64; KINDS],
    /// Refused log-ins with a tenant's name, by the tenant's place.
    pub refused: [u64; PLACES],
    /// Refused log-ins with a name that no tenant has.
    pub unknown: u64,
    /// All refused log-ins.
    pub logins: u64,
    /// The tenant whose name the last of them had, if it had one.
    pub last: Option<TenantId>,
    /// Lines of connections on which a tenant is logged in after them, by the tenant's place.
    pub spoken: [u64; PLACES],
    /// Those that were answered `FULL`, by the tenant's place.
    pub full: [u64; PLACES],
    /// The names that records of a journal name and that the table lacks.
    pub absent: Absent,
}

/// One more, unless the count is at its most.
fn up(count: u64) -> u64
    ensures { result ≡ count_up count }
{
    count.saturating_add(1)
}

/// The count at a place, and 0 past the last place.
pub fn count_at(counts: &[u64], place: usize) -> u64
    ensures { result ≡ slice_index counts.now place }
{
    if place < counts.len() {
        counts[place]
    } else {
        0
    }
}

/// Counts at a place, if it is one.
fn bump(counts: &mut [u64], place: usize)
    ensures { counts.new ≡ bumped counts.old place }
{
    if place < counts.len() {
        counts[place] = up(counts[place]);
    }
}

/// Sets the count at a place to 0, if it is one.
fn clear(counts: &mut [u64], place: usize)
    ensures { counts.new ≡ slice_set counts.old place 0 }
{
    if place < counts.len() {
        counts[place] = 0;
    }
}

/// Forgets the count of a tenant's place, if it is vacant.
pub fn clear_if(counts: &mut [u64], tenant: TenantId, vacant: bool)
    ensures { counts.new ≡ cleared vacant tenant counts.old }
{
    if vacant {
        clear(counts, tenant.place() as usize);
    }
}

/// The place of what a line asks for, in the order of the names.
fn call_place(asked: &Result<Line<'_>, Refusal>) -> usize
    ensures { result ≡ call_place (as_heard asked.now) }
{
    match asked {
        Ok(Line::Auth(_, _)) => 0,
        Ok(Line::Quit) => 1,
        Ok(Line::Ping) => PING,
        Ok(Line::Hello) => HELLO,
        Ok(Line::Call(call)) => place_of_call(call),
        Err(Refusal::Syntax) => NO_REQUEST,
        Err(Refusal::Long) => NO_REQUEST,
    }
}

/// Whether an answer is this text.
pub fn is_text(answer: &[u8], text: &'static [u8]) -> bool
    ensures { result ≡ eq_by_cmp string_order answer.now text.now }
{
    answer == text
}

/// The place of an answer's kind, in the order of the kinds.
#[tactic(auto, unfolding(crate::specs::Tally::reply_place))]
fn reply_place(answer: &[u8]) -> usize
    ensures { result ≡ reply_place answer.now }
{
    if is_text(answer, b"FULL\n") {
        return 1;
    }
    if is_text(answer, b"ERR MEMORY\n") {
        return 2;
    }
    if is_text(answer, b"ERR AUTH\n") {
        return 3;
    }
    if is_text(answer, b"ERR READONLY\n") {
        return 4;
    }
    if is_text(answer, b"ERR SYNTAX\n") {
        return 5;
    }
    if is_text(answer, b"ERR LONG\n") {
        return 6;
    }
    if is_text(answer, b"ERR CLIENTS\n") {
        return 7;
    }
    if is_text(answer, b"ERR FROZEN\n") {
        return 8;
    }
    if is_text(answer, b"ERR JOURNAL\n") {
        return 9;
    }
    0
}

/// Whether answers of this kind refuse a log-in.
fn refuses_login(place: usize) -> bool
    ensures { result ≡ refuses_login place }
{
    place == 3 || place == 7
}

/// The name of the log-in that a line asked for, if the answer refused it.
pub fn refused_name<'a>(asked: &'a Result<Line<'_>, Refusal>, answer: &[u8]) -> Option<&'a [u8]>
    ensures { option_map (λ s. s.now) result ≡ refused_name (as_heard asked.now) answer.now }
{
    match asked {
        Ok(Line::Auth(name, _)) => {
            if refuses_login(reply_place(answer)) {
                return Some(name.as_bytes());
            }
            None
        }
        Ok(Line::Quit) => None,
        Ok(Line::Ping) => None,
        Ok(Line::Hello) => None,
        Ok(Line::Call(_)) => None,
        Err(Refusal::Syntax) => None,
        Err(Refusal::Long) => None,
    }
}

impl Tally {
    /// Nothing yet.
    #[tactic(auto, unfolding(crate::specs::Tally::no_counts))]
    pub fn new() -> Tally
        ensures { result ≡ no_counts }
    {
        Tally {
            lines: [0; CALLS],
            replies: [0; KINDS],
            refused: [0; PLACES],
            unknown: 0,
            logins: 0,
            last: None,
            spoken: [0; PLACES],
            full: [0; PLACES],
            absent: Absent::new(),
        }
    }

    /// Counts a line and its answer.
    pub fn count(&mut self, asked: &Result<Line<'_>, Refusal>, answer: &[u8])
        ensures { self.new ≡ with_line (as_heard asked.now) answer.now self.old }
    {
        bump(&mut self.lines, call_place(asked));
        bump(&mut self.replies, reply_place(answer));
    }

    /// Counts a line and its answer for the tenant that speaks after it, if one does.
    pub fn count_for(&mut self, tenant: Option<TenantId>, answer: &[u8])
        ensures { self.new ≡ with_share tenant answer.now self.old }
    {
        let Some(tenant) = tenant else {
            return;
        };
        bump(&mut self.spoken, tenant.place() as usize);
        if reply_place(answer) == 1 {
            bump(&mut self.full, tenant.place() as usize);
        }
    }

    /// How many replies were `ERR MEMORY`.
    pub fn refused_requests(&self) -> u64
        ensures { result ≡ slice_index self.now.replies 2 }
    {
        count_at(&self.replies, 2)
    }

    /// Counts a log-in that was refused: the tenant with its name, if there is one.
    pub fn refuse(&mut self, tenant: Option<TenantId>)
        ensures { self.new ≡ refused_at tenant self.old }
    {
        self.logins = up(self.logins);
        match &tenant {
            Some(tenant) => bump(&mut self.refused, tenant.place() as usize),
            None => self.unknown = up(self.unknown),
        }
        self.last = tenant;
    }
}
