//! A socket of the operator: a few may ask at once. Nothing here waits.

use crate::limits::{ASKERS_LIMIT, QUESTION_LIMIT};
use crate::network::Question;
use crate::orders::is_order;
use crate::questions::{Meaning, Purpose, kicked, read_question, without_return};
use crate::times::is_past;
use arrayvec::ArrayVec;
use itoa::Buffer;
use judy_model::Name;
use judy_protocol::cut_line;
use mio::net::{UnixListener, UnixStream};
use mio::{Interest, Registry, Token};
use std::alloc::Global;
use std::fs::{self, Files, Permissions};
use std::io::{self, ErrorKind, Read, Write};
use std::net::Net;
use std::os::fd::{AsFd, OwnedFd};
use std::os::unix::fs::PermissionsExt;

/// The token of the status socket.
pub const STATUS: Token = Token(usize::MAX - 1);

/// The token of the control socket.
pub const CONTROL: Token = Token(usize::MAX - 2);

/// The token of all connections that ask.
const ASKER: Token = Token(usize::MAX - 3);

/// How many seconds a connection that asks may stay.
const PATIENCE: u32 = 5;

/// Who may ask: the user of the server.
const MODE: u32 = 0o600;

/// More connections than a socket lets wait.
const WAITING_LIMIT: usize = 4096;

/// The system's numbers for an accept that lacks a descriptor.
const NO_DESCRIPTOR: [i32; 2] = [23, 24];

/// What became of a connection that asks.
#[derive(Clone, Copy, Debug, PartialEq, Eq)]
enum Heard {
    /// Its question is not whole yet.
    Part,
    /// It is not to be answered.
    Gone,
    /// It asks this.
    Asks(Question),
}

/// A connection that asks: since which second, and what came of its question.
#[derive(Drop)]
struct Asker {
    stream: UnixStream,
    since: Option<u64>,
    asked: ArrayVec<u8, QUESTION_LIMIT>,
}

/// A socket of the operator, and the connections that ask.
#[derive(Drop)]
pub struct Desk {
    purpose: Purpose,
    listener: UnixListener,
    /// A descriptor that is given up for a connection where the process may have no more.
    spare: Option<OwnedFd>,
    /// Whether a connection may wait.
    comes: bool,
    /// Whether one waits that lacks a descriptor.
    lacks: bool,
    /// Whether another question may be whole.
    more: bool,
    askers: Vec<Asker>,
    /// The connection whose question is answered next.
    current: Option<Asker>,
    /// Whether it asks by HTTP.
    page: bool,
}

/// Writes bytes once. Whether all were taken.
fn put(stream: &mut UnixStream, bytes: &[u8]) -> bool {
    match stream.write(bytes) {
        Ok(n) => n == bytes.len(),
        Err(_) => false,
    }
}

/// The head of an HTTP answer with this many bytes.
fn head(length: usize) -> ArrayVec<u8, 256> {
    let mut buffer = Buffer::new();
    let mut head = ArrayVec::new();
    let _ = head.try_extend_from_slice(
        b"HTTP/1.0 200 OK\r\nContent-Type: text/plain; version=0.0.4\r\n",
    );
    let _ = head.try_extend_from_slice(b"Connection: close\r\nContent-Length: ");
    let _ = head.try_extend_from_slice(buffer.format(length as u64).as_bytes());
    let _ = head.try_extend_from_slice(b"\r\n\r\n");
    head
}

/// Lets nobody but the user of the server ask at a socket that was just made. Who came before may have
/// come by the mode that the system gave it, and is sent away.
fn restrict<R: Files>(rt: &R, path: &str, listener: &UnixListener) -> io::Result<()> {
    fs::set_permissions(rt, path, Permissions::from_mode(MODE))?;
    for _one in 0..WAITING_LIMIT {
        if listener.accept().is_err() {
            return Ok(());
        }
    }
    Ok(())
}

/// Another descriptor, if the process may have one.
fn spare_of(listener: &UnixListener) -> Option<OwnedFd> {
    listener.as_fd().try_clone_to_owned().ok()
}

impl Asker {
    /// Reads once, and says what is asked.
    fn hear(&mut self, purpose: Purpose) -> Meaning {
        let mut bytes = [0u8; QUESTION_LIMIT];
        match self.stream.read(&mut bytes) {
            Ok(0) => Meaning::Gone,
            Ok(n) => {
                if self.asked.try_extend_from_slice(&bytes[..n]).is_err() {
                    return Meaning::Other;
                }
                read_question(purpose, self.asked.as_slice())
            }
            Err(e) => {
                if e.kind() == ErrorKind::WouldBlock {
                    Meaning::Part
                } else {
                    Meaning::Gone
                }
            }
        }
    }
}

impl Desk {
    /// Makes the socket at a path. Only the user of the server may ask there.
    pub fn bind<R: Files + Net>(
        rt: &R,
        alloc: Global,
        registry: &Registry,
        path: &str,
        purpose: Purpose,
    ) -> io::Result<Desk> {
        let askers = Vec::with_capacity(alloc, ASKERS_LIMIT)?;
        let mut listener = UnixListener::bind(rt, path)?;
        if let Err(e) = restrict(rt, path, &listener) {
            let _ = fs::remove_file(rt, path);
            return Err(e);
        }
        let token = match purpose {
            Purpose::Status => STATUS,
            Purpose::Control => CONTROL,
        };
        registry.register(&mut listener, token, Interest::READABLE)?;
        let spare = spare_of(&listener);
        Ok(Desk {
            purpose,
            listener,
            spare,
            comes: true,
            lacks: false,
            more: false,
            askers,
            current: None,
            page: false,
        })
    }

    /// A connection has come.
    pub fn expect_one(&mut self) {
        self.comes = true;
    }

    /// Whether more may ask at once.
    fn has_room(&self) -> bool {
        self.askers.len() < ASKERS_LIMIT
    }

    /// How many milliseconds the loop may wait, if it may wait so long without this socket.
    pub fn patience(&self, time: Option<u32>) -> Option<u32> {
        if self.more || (self.comes && !self.lacks && self.has_room()) {
            return Some(0);
        }
        if self.comes || !self.askers.is_empty() {
            return Some(time.unwrap_or(1000).min(1000));
        }
        time
    }

    /// Whether a connection asks or asked last, or one may wait to be accepted. After the last question the
    /// loop has to ask once more, or it would not sleep again.
    pub fn is_busy(&self) -> bool {
        self.more || self.comes || !self.askers.is_empty()
    }

    /// Keeps a connection that came.
    fn seat(&mut self, registry: &Registry, mut stream: UnixStream, now: Option<u64>) {
        if registry
            .register(&mut stream, ASKER, Interest::READABLE)
            .is_ok()
        {
            let asker = Asker {
                stream,
                since: now,
                asked: ArrayVec::new(),
            };
            let _kept = self.askers.push(asker);
        }
    }

    /// Takes up an accept that failed. Whether to try again at once.
    fn fail(&mut self, e: &io::Error) -> bool {
        if e.kind() == ErrorKind::WouldBlock {
            self.comes = false;
            return false;
        }
        let number = e.raw_os_error().unwrap_or(0);
        if !NO_DESCRIPTOR.contains(&number) {
            return true;
        }
        self.lacks = self.spare.take().is_none();
        !self.lacks
    }

    /// Accepts connections while one waits and there is room for it.
    pub fn accept(&mut self, registry: &Registry, now: Option<u64>) {
        self.lacks = false;
        for _try in 0..ASKERS_LIMIT {
            if !self.comes || !self.has_room() {
                return;
            }
            match self.listener.accept() {
                Ok((stream, _)) => self.seat(registry, stream, now),
                Err(e) => {
                    if !self.fail(&e) {
                        return;
                    }
                }
            }
        }
    }

    /// What the connection at a place asks. One that is too slow is gone, whatever it sent.
    fn hear(&mut self, at: usize, now: Option<u64>) -> Heard {
        let purpose = self.purpose;
        let Some(asker) = self.askers.get_mut(at) else {
            return Heard::Gone;
        };
        match asker.hear(purpose) {
            Meaning::Asks(question) => {
                self.page = false;
                Heard::Asks(question)
            }
            Meaning::Page => {
                self.page = true;
                Heard::Asks(Question::Status)
            }
            Meaning::Part => {
                if is_past(Some(PATIENCE), asker.since.unwrap_or(0), now) {
                    Heard::Gone
                } else {
                    Heard::Part
                }
            }
            Meaning::Other => {
                let _ = put(&mut asker.stream, b"ERR\n");
                Heard::Gone
            }
            Meaning::Gone => Heard::Gone,
        }
    }

    /// Takes out the connection at a place.
    fn take(&mut self, at: usize) -> Option<Asker> {
        if at < self.askers.len() {
            return Some(self.askers.remove(at));
        }
        None
    }

    /// What a connection asks, if one has asked.
    pub fn ask(&mut self, now: Option<u64>) -> Question {
        self.more = false;
        let mut at = 0;
        for _asker in 0..ASKERS_LIMIT {
            if at >= self.askers.len() {
                break;
            }
            match self.hear(at, now) {
                Heard::Part => at += 1,
                Heard::Gone => {
                    let _gone = self.take(at);
                }
                Heard::Asks(question) => {
                    self.more = true;
                    self.current = self.take(at);
                    return question;
                }
            }
        }
        self.fill();
        Question::Nothing
    }

    /// Takes a spare descriptor again, if it was given up.
    fn fill(&mut self) {
        if self.spare.is_none() {
            self.spare = spare_of(&self.listener);
        }
    }

    /// The tenant that the last question names. An empty name if it names none.
    pub fn named(&self) -> Name {
        let nobody = Name::of(b"");
        let Some(asker) = &self.current else {
            return nobody;
        };
        let Some((line, _rest)) = cut_line(asker.asked.as_slice()) else {
            return nobody;
        };
        kicked(without_return(line)).unwrap_or(nobody)
    }

    /// The line of the last question, if it asks to freeze or thaw a tenant.
    pub fn order(&self) -> Option<&[u8]> {
        let asker = self.current.as_ref()?;
        let (line, _rest) = cut_line(asker.asked.as_slice())?;
        let line = without_return(line);
        if is_order(line) { Some(line) } else { None }
    }

    /// Answers with these texts, and closes the connection. What it does not take at once is dropped.
    pub fn answer(&mut self, first: &[u8], rest: &[u8]) {
        if let Some(mut asker) = self.current.take() {
            self.put_all(&mut asker.stream, first, rest);
        }
        self.fill();
    }

    /// Writes an answer.
    fn put_all(&self, stream: &mut UnixStream, first: &[u8], rest: &[u8]) {
        if self.page
            && !put(
                stream,
                head(first.len().saturating_add(rest.len())).as_slice(),
            )
        {
            return;
        }
        if put(stream, first) {
            let _ = put(stream, rest);
        }
    }
}
