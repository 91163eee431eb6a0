//! What an operator is warned of: refused log-ins, and requests that were refused for memory.
ghost use Rattle.std.specs.Prelude.{◌≡◌, ◌≤◌, ◌+◌, ◌++◌, ℕ, List, decimal, length};
ghost use Rattle.judy_many.specs.Nets.{DidLog};
ghost use Rattle.judy_many.specs.Stories.{BeginsWith};
ghost use Rattle.judy_many.specs.Warnings.{HasWarned, TellsLogins, are_owed, is_due, is_later, named_login, others_text, requests_text, told_after, warning_acts};

use crate::limits::TOLD_LIMIT;
use crate::network::Network;
use crate::shows::Shows;
use arrayvec::ArrayVec;
use itoa::Buffer;

/// How much of a count was told, and at which second it was told last.
#[derive(Clone, Copy, Debug, PartialEq, Eq)]
pub struct Told {
    /// The count when it was told.
    pub count: u64,
    /// The second. None if it was not told yet.
    pub at: Option<u64>,
}

impl Told {
    /// Nothing was told.
    fn new() -> Told {
        Told { count: 0, at: None }
    }
}

/// Whether a second is later than another. No second is if the clock fails; each is later than none.
fn is_later(now: Option<u64>, at: Option<u64>) -> bool
    ensures { result ≡ is_later now at }
{
    match (now, at) {
        (None, _) => false,
        (Some(_), None) => true,
        (Some(now), Some(at)) => at < now,
    }
}

/// Whether a count is told now: it rose, and was not told in this second.
fn is_due(told: Told, count: u64, now: Option<u64>) -> bool
    ensures { result ≡ is_due told count now }
{
    told.count < count && is_later(now, told.at)
}

/// A line that begins with this text.
pub fn begin(text: &'static [u8]) -> ArrayVec<u8, TOLD_LIMIT>
    requires { length text.now ≤ TOLD_LIMIT }
    ensures { result.items ≡ text.now }
{
    let mut line = ArrayVec::new();
    let _fits = line.try_extend_from_slice(text);
    line
}

/// Appends a text, or nothing if there is no room for it.
pub fn add(line: &mut ArrayVec<u8, TOLD_LIMIT>, text: &[u8])
    ensures head { (head : List ℕ) → BeginsWith head line.old.items → BeginsWith head line.new.items }
    ensures fits { length line.old.items + length text.now ≤ TOLD_LIMIT
        → line.new.items ≡ line.old.items ++ text.now }
    ensures most { length line.new.items ≤ length line.old.items + length text.now }
{
    let _fits = line.try_extend_from_slice(text);
}

/// Appends a number.
fn add_number(line: &mut ArrayVec<u8, TOLD_LIMIT>, n: u64)
    ensures head { (head : List ℕ) → BeginsWith head line.old.items → BeginsWith head line.new.items }
    ensures fits { length line.old.items + 20 ≤ TOLD_LIMIT
        → line.new.items ≡ line.old.items ++ decimal n }
    ensures most { length line.new.items ≤ length line.old.items + 20 }
{
    let mut buffer = Buffer::new();
    add(line, buffer.format(n).as_bytes());
}

/// Appends a tenant's name.
fn add_name(line: &mut ArrayVec<u8, TOLD_LIMIT>, name: &[u8])
    ensures head { (head : List ℕ) → BeginsWith head line.old.items → BeginsWith head line.new.items }
    ensures fits { length name.now ≤ 32 → length line.old.items ≤ 16
        → line.new.items ≡ line.old.items ++ named_login name.now }
    ensures most { length name.now ≤ 32 → length line.new.items ≤ length line.old.items + 32 }
{
    if name.is_empty() {
        add(line, b"no such tenant");
        return;
    }
    add(line, name);
}

/// Appends how many others there are, if there are some.
fn add_others(line: &mut ArrayVec<u8, TOLD_LIMIT>, others: u64)
    ensures head { (head : List ℕ) → BeginsWith head line.old.items → BeginsWith head line.new.items }
    ensures fits { length line.old.items ≤ 48 → line.new.items ≡ line.old.items ++ others_text others }
{
    if others == 0 {
        return;
    }
    add(line, b", and ");
    add_number(line, others);
    add(line, b" more");
}

/// The line of this number of refused log-ins, the last of them with this tenant's name, if it has one.
fn logins_line(name: &[u8], count: u64) -> ArrayVec<u8, TOLD_LIMIT>
    ensures { TellsLogins name.now count result.items }
{
    let mut line = begin(b"log-in refused: ");
    add_name(&mut line, name);
    add_others(&mut line, count.saturating_sub(1));
    line
}

/// The line of this number of requests that were refused for memory.
fn requests_line(count: u64) -> ArrayVec<u8, TOLD_LIMIT>
    ensures { result.items ≡ requests_text count }
{
    let mut line = begin(b"out of memory: ");
    add_number(&mut line, count);
    add(&mut line, b" requests refused");
    line
}

/// Tells a line if its count is due.
fn tell<N: Network>(network: &mut N, told: &mut Told, count: u64, now: Option<u64>, line: &[u8])
    ensures log { DidLog (N.log network.old) (warning_acts (is_due told.old count now) line.now)
        (N.log network.new) }
    ensures told { told.new ≡ told_after told.old count now }
{
    if is_due(*told, count, now) {
        network.warn(line);
        *told = Told { count, at: now };
    }
}

/// What the operator was told of.
#[derive(Clone, Copy, Debug, PartialEq, Eq)]
pub struct Warnings {
    logins: Told,
    requests: Told,
}

impl Warnings {
    /// Nothing was told.
    pub fn new() -> Warnings {
        Warnings {
            logins: Told::new(),
            requests: Told::new(),
        }
    }

    /// Whether something is left to tell.
    pub fn are_owed<S: Shows>(&self, service: &S) -> bool
        ensures { result ≡ are_owed self.now (S.refused service.now) (S.short service.now) }
    {
        self.logins.count < service.refused_logins()
            || self.requests.count < service.refused_requests()
    }

    /// Tells how many log-ins and requests were refused since they were told last, each at most once a
    /// second. The clock is asked only if something is left to tell.
    pub fn tell<S: Shows, N: Network>(&mut self, network: &mut N, service: &S)
        ensures { HasWarned self.old (S.last service.now) (S.refused service.now) (S.short service.now)
            (N.log network.old) (N.log network.new) self.new }
    {
        if !self.are_owed(service) {
            return;
        }
        let now = network.seconds();
        let logins = service.refused_logins();
        let more = logins.saturating_sub(self.logins.count);
        let line = logins_line(service.last_refused(), more);
        tell(network, &mut self.logins, logins, now, line.as_slice());
        let requests = service.refused_requests();
        let line = requests_line(requests.saturating_sub(self.requests.count));
        tell(network, &mut self.requests, requests, now, line.as_slice());
    }
}
