//! Unix sockets, by `epoll`. Two more may be for the operator.
ghost use Rattle.std.specs.IoError.{raw_os_error};
ghost use Rattle.std.specs.Prelude.{◌≡◌, ◌<◌, length};
ghost use Rattle.judy_many.specs.Comes.{HasNumber};
ghost use Rattle.judy_many.specs.Nets.{Fits, Takes};
ghost use Rattle.judy_many.specs.Passing.{got_by, may_pass, put_by};
ghost use Rattle.judy_many.specs.Queues.{AreAwake, StayAwake};

use crate::counts::{Counts, JournalCounts, TenantBytes};
use crate::desk::{CONTROL, Desk, STATUS};
use crate::limits::{CLIENTS_LIMIT, EVENTS_LIMIT};
use crate::lines::tell_line;
use crate::network::{Accept, Got, How, Put, Question};
use crate::questions::Purpose;
use crate::queue::Queue;
use judy_model::Name;
use mio::net::{UnixListener, UnixStream};
use mio::{Events, Interest, Poll, Registry, Token};
use std::alloc::Global;
use std::fmt::Display;
use std::fs::Files;
use std::io::{self, Eprint, ErrorKind, Read, Write};
use std::net::Net;
use std::rt::Clock;
use std::time::{Duration, Instant};

/// The token of the listener.
const LISTENER: Token = Token(usize::MAX);

/// The system's numbers for errors after which a later accept may succeed.
const LATER: [i32; 7] = [4, 12, 23, 24, 71, 103, 105];

/// A Unix socket that connections come to.
#[derive(Drop)]
pub struct Sockets<'a, F> {
    rt: &'a F,
    alloc: Global,
    listener: UnixListener,
    poll: Poll,
    events: Events<Global>,
    began: Option<Instant>,
    fault: Option<io::Error>,
    status: Option<Desk>,
    control: Option<Desk>,
    counts: Counts,
    warned: Option<u64>,
    /// The slots whose connections the last wait told of.
    pub told: Vec<u64>,
}

/// A connection, and whether it waits for room to write.
#[derive(Drop)]
pub struct Connection {
    /// Its number.
    pub id: u64,
    stream: UnixStream,
    slot: usize,
    blocked: bool,
}

impl<'a, F: Files + Net + Clock + Eprint> Sockets<'a, F> {
    /// Makes a socket at a path.
    pub fn bind(rt: &'a F, alloc: Global, path: &str) -> io::Result<Self> {
        let mut listener = UnixListener::bind(rt, path)?;
        let poll = Poll::new(rt)?;
        poll.registry()
            .register(&mut listener, LISTENER, Interest::READABLE)?;
        let events = Events::with_capacity(alloc, EVENTS_LIMIT)?;
        Ok(Sockets {
            rt,
            alloc,
            listener,
            poll,
            events,
            began: Instant::now(rt).ok(),
            fault: None,
            status: None,
            control: None,
            counts: Counts::new(),
            warned: None,
            told: Vec::with_capacity(alloc, EVENTS_LIMIT)?,
        })
    }

    /// Makes the status socket at a path.
    pub fn watch(&mut self, path: &str) -> io::Result<()> {
        self.status = Some(self.desk(path, Purpose::Status)?);
        Ok(())
    }

    /// Makes the control socket at a path.
    pub fn control(&mut self, path: &str) -> io::Result<()> {
        self.control = Some(self.desk(path, Purpose::Control)?);
        Ok(())
    }

    /// A socket of the operator at a path.
    fn desk(&self, path: &str, purpose: Purpose) -> io::Result<Desk> {
        Desk::bind(self.rt, self.alloc, self.poll.registry(), path, purpose)
    }

    /// Why the listener or a wait failed for good, if one did.
    pub fn fault(&self) -> Option<io::Error> {
        self.fault
    }

    /// Counts an accept that failed, and tells the reason, unless one was told in the same second of the clock.
    fn fail(&mut self, reason: io::Error) {
        self.counts.fail();
        let now = self.seconds();
        if now.is_some() && self.warned == now {
            return;
        }
        self.warned = now;
        self.tell(format_args!("judyd: accept failed: {reason}"));
    }

    /// Tells a line to the operator. Counts it if it was dropped.
    pub fn tell<D: Display + Drop>(&mut self, line: D) {
        if !tell_line(self.rt, line) {
            self.counts.drop_line();
        }
    }
}

/// How many milliseconds the loop may wait, if it may wait so long without this socket of the operator.
fn patience(desk: &Option<Desk>, time: Option<u32>) -> Option<u32> {
    match desk {
        Some(desk) => desk.patience(time),
        None => time,
    }
}

/// A connection has come to a socket of the operator.
fn expect_at(desk: &mut Option<Desk>) {
    if let Some(desk) = desk {
        desk.expect_one();
    }
}

/// Whether one asks at a socket of the operator, or may wait there.
fn is_busy(desk: &Option<Desk>) -> bool {
    desk.as_ref().is_some_and(|desk| desk.is_busy())
}

/// What is asked at a socket of the operator.
fn ask_at(desk: &mut Option<Desk>, registry: &Registry, now: Option<u64>) -> Question {
    let Some(desk) = desk else {
        return Question::Nothing;
    };
    desk.accept(registry, now);
    desk.ask(now)
}

/// Marks the slot of a connection that became ready, and adds it to those that were told of.
fn tell_slot(queue: &mut Queue, told: &mut Vec<u64>, slot: usize, ended: bool)
    ensures stay { StayAwake queue.old queue.new }
    ensures told { AreAwake told.old.items queue.old → AreAwake told.new.items queue.new }
{
    if slot >= CLIENTS_LIMIT {
        return;
    }
    let _fits = told.push(slot as u64);
    if ended {
        queue.mark_ended(slot);
    } else {
        queue.mark_ready(slot);
    }
}

/// The listeners to which connections came.
#[derive(Clone, Copy, Debug, PartialEq, Eq)]
struct Ready {
    listener: bool,
    status: bool,
    control: bool,
}

/// Marks the slots of the connections that became ready, in the order in which events tell of them.
fn tell_slots(events: &Events<Global>, queue: &mut Queue, told: &mut Vec<u64>) -> Ready
    ensures stay { StayAwake queue.old queue.new }
    ensures told { AreAwake told.old.items queue.old → AreAwake told.new.items queue.new }
{
    let mut ready = Ready {
        listener: false,
        status: false,
        control: false,
    };
    for event in events.iter() {
        let token = event.token();
        ready.listener = ready.listener || token == LISTENER;
        ready.status = ready.status || token == STATUS;
        ready.control = ready.control || token == CONTROL;
        let ended = event.is_read_closed() || event.is_error();
        tell_slot(queue, told, token.0, ended);
    }
    ready
}

/// What a read gave, by the answer of the system.
fn got_of(read: &io::Result<usize>) -> Got
    ensures { result ≡ got_by read.now }
{
    match read {
        Ok(0) => Got::End,
        Ok(n) => Got::Bytes(*n),
        Err(e) => match e.kind() {
            ErrorKind::WouldBlock => Got::Nothing,
            _ => Got::Fault,
        },
    }
}

/// How much a write took, by the answer of the system.
fn put_of(wrote: &io::Result<usize>) -> Put
    ensures { result ≡ put_by wrote.now }
{
    match wrote {
        Ok(n) => Put::Took(*n),
        Err(e) => match e.kind() {
            ErrorKind::WouldBlock => Put::Took(0),
            _ => Put::Fault,
        },
    }
}

/// Whether a later accept may succeed.
fn is_passing(e: &io::Error) -> bool
    ensures { result ≡ may_pass (raw_os_error e.now) }
{
    let Some(number) = e.raw_os_error() else {
        return false;
    };
    LATER.contains(&number)
}

impl<'a, F: Files + Net + Clock + Eprint> Sockets<'a, F> {
    /// The next connection, which gets this number. `wait` tells of it at this slot.
    pub fn accept(&mut self, id: u64, slot: usize) -> Accept<Connection>
        ensures { HasNumber (λ c. c.id) result id }
    {
        match self.listener.accept() {
            Ok((mut stream, _)) => {
                let registry = self.poll.registry();
                match registry.register(&mut stream, Token(slot), Interest::READABLE) {
                    Ok(()) => {
                        self.counts.accept();
                        Accept::Came(Connection {
                            id,
                            stream,
                            slot,
                            blocked: false,
                        })
                    }
                    Err(e) => {
                        self.fail(e);
                        Accept::Later
                    }
                }
            }
            Err(e) => {
                if e.kind() == ErrorKind::WouldBlock {
                    return Accept::Nothing;
                }
                if is_passing(&e) {
                    self.fail(e);
                    return Accept::Later;
                }
                self.fault = Some(e);
                Accept::Fault
            }
        }
    }

    /// Waits until a connection is ready, or one can be accepted, or this many milliseconds have
    /// passed. Without a time there is no limit. Marks the slots whose connections became ready, in
    /// this order, and returns whether a connection can be accepted. None if the system fails for
    /// good.
    pub fn wait(&mut self, time: Option<u32>, queue: &mut Queue) -> Option<bool>
        ensures stay { StayAwake queue.old queue.new }
        ensures told { AreAwake self.new.told.items queue.new }
    {
        self.told.clear();
        let time = patience(&self.status, patience(&self.control, time));
        let timeout = time.map(|n| Duration::from_millis(u64::from(n)));
        if let Err(e) = self.poll.poll(&mut self.events, timeout) {
            if e.kind() == ErrorKind::Interrupted {
                return Some(false);
            }
            self.fault = Some(e);
            return None;
        }
        let ready = tell_slots(&self.events, queue, &mut self.told);
        if ready.status {
            expect_at(&mut self.status);
        }
        if ready.control {
            expect_at(&mut self.control);
        }
        Some(ready.listener)
    }

    /// Reads what has come to the front of the buffer.
    pub fn read(&mut self, connection: &mut Connection, buf: &mut [u8]) -> Got
        requires room { 0 < length buf.old }
        ensures fits { Fits result (length buf.new) }
        ensures same { connection.new.id ≡ connection.old.id }
    {
        let got = got_of(&connection.stream.read(buf));
        if let Got::Bytes(n) = got {
            self.counts.receive(n);
        }
        got
    }

    /// Writes bytes from the front of the slice. Where it does not take all of them, `wait` tells
    /// when the connection takes more.
    pub fn write(&mut self, connection: &mut Connection, bytes: &[u8]) -> Put
        requires some { 0 < length bytes.now }
        ensures takes { Takes result (length bytes.now) }
        ensures same { connection.new.id ≡ connection.old.id }
    {
        let Put::Took(taken) = put_of(&connection.stream.write(bytes)) else {
            return Put::Fault;
        };
        self.counts.send(taken);
        let blocked = taken < bytes.len();
        if blocked != connection.blocked {
            let interest = if blocked {
                Interest::WRITABLE
            } else {
                Interest::READABLE
            };
            let registry = self.poll.registry();
            let token = Token(connection.slot);
            if registry
                .reregister(&mut connection.stream, token, interest)
                .is_err()
            {
                return Put::Fault;
            }
            connection.blocked = blocked;
        }
        Put::Took(taken)
    }

    /// Counts a connection that is closed.
    pub fn close(&mut self, how: How) {
        self.counts.close(how);
    }

    /// The seconds since the socket was made. None if the clock fails.
    pub fn seconds(&mut self) -> Option<u64> {
        let began = self.began?;
        let time = began.elapsed(self.rt).ok()?;
        Some(time.as_secs())
    }

    /// What the operator asks for on the status socket or the control socket, if there is one.
    pub fn ask(&mut self) -> Question {
        if !is_busy(&self.control) && !is_busy(&self.status) {
            return Question::Nothing;
        }
        let now = self.seconds();
        let registry = self.poll.registry();
        let command = ask_at(&mut self.control, registry, now);
        if command != Question::Nothing {
            return command;
        }
        ask_at(&mut self.status, registry, now)
    }

    /// Answers what was asked last, with the numbers of the journal. What the asker does not take at
    /// once is dropped.
    pub fn report(&mut self, text: &[u8], journal: JournalCounts, tenants: &[TenantBytes]) {
        let seconds = self.seconds().unwrap_or(0);
        let first = self.counts.text(seconds, journal, tenants);
        if let Some(desk) = &mut self.status {
            desk.answer(first.as_slice(), text);
        }
    }

    /// Tells a line to the operator, on standard error.
    pub fn warn(&mut self, text: &[u8]) {
        if let Ok(text) = str::from_utf8(text) {
            self.tell(format_args!("judyd: {text}"));
        }
    }

    /// The name of the tenant that the last question named. Empty if it named none.
    pub fn named(&mut self) -> Name {
        match &self.control {
            Some(desk) => desk.named(),
            None => Name::of(b""),
        }
    }

    /// The line of the last question, if it asks to freeze or thaw a tenant.
    pub fn order(&self) -> Option<&[u8]> {
        self.control.as_ref()?.order()
    }

    /// Answers what was asked last, with this text alone.
    pub fn reply(&mut self, text: &[u8]) {
        if let Some(desk) = &mut self.control {
            desk.answer(text, b"");
        }
    }
}
