//! The random bytes, the files and the Unix sockets of the system.
ghost use Rattle.std.specs.Prelude.{◌≡◌, ◌≤◌, codes, length, Some, []};
ghost use Rattle.judy_programs.specs.Leaving.{HasLeft, first_of};

use crate::config::{FileRead, read_file};
use crate::directory::Directory;
use crate::hosts::Hosts;
use crate::journals::{Journals, Readies};
use crate::limits::{FILE_LIMIT, PATH_LIMIT};
use crate::marks::{Mark, remove_marked};
use crate::table_file::TableFile;
use arrayvec::ArrayVec;
use judy_disk::Locks;
use judy_many::{
    Accept, Connection, Got, How, Network, Put, Question, Queue, Record, Sockets, Unread,
};
use judy_model::Name;
use judy_recovery::{JournalFault, Resumed};
use judy_stream::Reads;
use std::alloc::Global;
use std::fs::{self, Files};
use std::io::{self, Eprint, Read};
use std::net::Net;
use std::rt::Clock;

/// What the system refused, and its reason.
#[derive(Clone, Copy, Debug)]
pub enum Failed {
    /// The file cannot be opened.
    File(io::Error),
    /// The socket cannot be made, or it failed for good.
    Socket(io::Error),
    /// The status socket cannot be made.
    Status(io::Error),
    /// The control socket cannot be made.
    Control(io::Error),
}

/// The clients that were not served. The counts saturate.
#[derive(Clone, Copy, Debug, PartialEq, Eq)]
pub struct Unserved {
    /// How often a connection could not be accepted. One that waits counts each time.
    pub accepts: u64,
    /// How many connections were closed, since there was no memory for their buffers.
    pub memory: u64,
}

/// The sockets that were made: which file each of them is.
#[derive(Clone, Copy, Debug)]
struct Made {
    socket: Option<Mark>,
    status: Option<Mark>,
    control: Option<Mark>,
}

/// Removes the socket at a path, if one is given, that was made and is still there.
fn remove_given<F: Files>(rt: &F, path: Option<&str>, mark: Option<Mark>) {
    if let Some(path) = path {
        remove_marked(rt, path, mark);
    }
}

/// Reads the file of a table, which must be no pipe: to open one or to read from it may wait.
fn read_regular<F: Files>(rt: &F, path: &str, text: &mut Vec<u8>) -> Result<(), Unread> {
    let found = fs::metadata(rt, path).map_err(|_| Unread::File)?;
    if !found.is_file() {
        return Err(Unread::Irregular);
    }
    let file = fs::open(rt, path).map_err(|_| Unread::File)?;
    let mut reads = Reads::new(file);
    let mut bytes: ArrayVec<u8, FILE_LIMIT> = ArrayVec::new();
    match read_file(&mut reads, &mut bytes) {
        FileRead::Whole => text
            .extend_from_slice(bytes.as_slice())
            .map_err(|_| Unread::Memory),
        FileRead::Long => Err(Unread::Long),
        FileRead::Fault => Err(Unread::File),
    }
}

/// The random bytes, the files and the Unix sockets of the system. Its log has what was asked of
/// them, and what they gave and took, in order.
#[derive(Drop)]
pub struct System<'a, F: Locks> {
    rt: &'a F,
    sockets: Option<Sockets<'a, F>>,
    failed: Option<Failed>,
    unserved: Unserved,
    made: Made,
    start: Option<String>,
    started: bool,
    path: ArrayVec<u8, PATH_LIMIT>,
    directory: Directory<'a, F>,
    notes: Record,
}

/// The file of the system's random bytes.
pub fn random_file() -> &'static str
    ensures { result.now ≡ codes "/dev/urandom" }
{
    "/dev/urandom"
}

/// Random bytes that nobody can guess, read from this file of the system. None if it gives too few.
pub fn read_secret<F: Files>(rt: &F, path: &str) -> Option<[u8; 16]> {
    let mut file = fs::open(rt, path).ok()?;
    let mut secret = [0u8; 16];
    file.read_exact(&mut secret).ok()?;
    Some(secret)
}

impl<'a, F: Locks + Net + Clock + Eprint + Clone + Drop> System<'a, F> {
    /// The system, with no socket yet.
    pub fn new(rt: &'a F) -> Self
        ensures log { ⟦<System<'a, F> as Network>⟧.log result ≡ Some [] }
    {
        System {
            rt,
            sockets: None,
            failed: None,
            unserved: Unserved {
                accepts: 0,
                memory: 0,
            },
            made: Made {
                socket: None,
                status: None,
                control: None,
            },
            start: None,
            started: false,
            path: ArrayVec::new(),
            directory: Directory::new(rt),
            notes: Record::new(),
        }
    }

    /// Sets the line that is told on standard error once clients are waited for.
    pub fn tell_at_start(&mut self, line: String)
        ensures log { ⟦<System<'a, F> as Network>⟧.log self.new ≡ ⟦<System<'a, F> as Network>⟧.log self.old }
    {
        self.start = Some(line);
    }

    /// Whether clients were waited for.
    pub fn has_started(&self) -> bool {
        self.started
    }

    /// Tells that clients are waited for, once.
    fn tell_start(&mut self)
        ensures log { self.new.notes ≡ self.old.notes }
    {
        self.started = true;
        let Some(line) = self.start.take() else {
            return;
        };
        if let Some(sockets) = &mut self.sockets {
            sockets.tell(line.as_str());
        }
    }

    /// Removes the sockets at these paths, those that were made and are still there, and closes them.
    pub fn leave(&mut self, socket: &str, status: Option<&str>, control: Option<&str>)
        ensures { HasLeft self.new }
    {
        remove_marked(self.rt, socket, self.made.socket);
        remove_given(self.rt, status, self.made.status);
        remove_given(self.rt, control, self.made.control);
        self.sockets = None;
    }

    /// Keeps why the listener or a wait failed for good, if one did.
    fn note_fault(&mut self)
        ensures log { self.new.notes ≡ self.old.notes }
    {
        if let Some(sockets) = &self.sockets
            && let Some(e) = sockets.fault()
        {
            self.failed = Some(Failed::Socket(e));
        }
    }

    /// Keeps the path of a file that was opened, if it is the first: that is the file of the table.
    fn keep_path(&mut self, path: &str)
        ensures log { self.new.notes ≡ self.old.notes }
        ensures path { length path.now ≤ PATH_LIMIT →
            self.new.path.items ≡ first_of self.old.path.items path.now }
    {
        if self.path.is_empty() {
            let _fits = self.path.try_extend_from_slice(path.as_bytes());
        }
    }

    /// Reads the file of the table again.
    fn read_again(&mut self, text: &mut Vec<u8>) -> Result<(), Unread>
        ensures log { self.new.notes ≡ self.old.notes }
    {
        let path = str::from_utf8(self.path.as_slice()).map_err(|_| Unread::File)?;
        read_regular(self.rt, path, text)
    }

    /// The line that asked to freeze or thaw a tenant, if the last question did; otherwise the file of the
    /// table, read again.
    fn fetch(&mut self, text: &mut Vec<u8>) -> Result<(), Unread>
        ensures log { self.new.notes ≡ self.old.notes }
    {
        let Some(sockets) = &self.sockets else {
            return self.read_again(text);
        };
        match sockets.order() {
            Some(line) => text.extend_from_slice(line).map_err(|_| Unread::Memory),
            None => self.read_again(text),
        }
    }

    /// Makes the socket of the clients. False if it cannot be made.
    fn bind_at(&mut self, alloc: Global, path: &str) -> bool
        ensures log { self.new.notes ≡ self.old.notes }
    {
        match Sockets::bind(self.rt, alloc, path) {
            Ok(sockets) => {
                self.sockets = Some(sockets);
                self.made.socket = Mark::of(self.rt, path);
                true
            }
            Err(e) => {
                self.failed = Some(Failed::Socket(e));
                false
            }
        }
    }

    /// Makes the status socket. False if it cannot be made.
    fn watch_at(&mut self, path: &str) -> bool
        ensures log { self.new.notes ≡ self.old.notes }
    {
        let Some(sockets) = &mut self.sockets else {
            return false;
        };
        match sockets.watch(path) {
            Ok(()) => {
                self.made.status = Mark::of(self.rt, path);
                true
            }
            Err(e) => {
                self.failed = Some(Failed::Status(e));
                false
            }
        }
    }

    /// Makes the control socket. False if it cannot be made.
    fn control_at(&mut self, path: &str) -> bool
        ensures log { self.new.notes ≡ self.old.notes }
    {
        let Some(sockets) = &mut self.sockets else {
            return false;
        };
        match sockets.control(path) {
            Ok(()) => {
                self.made.control = Mark::of(self.rt, path);
                true
            }
            Err(e) => {
                self.failed = Some(Failed::Control(e));
                false
            }
        }
    }

    /// What the system refused last, and why, if it gave a reason.
    pub fn failed(&self) -> Option<Failed> {
        self.failed
    }

    /// What the journal's disk refused last, and why.
    pub fn take_journal_fault(&mut self) -> Option<JournalFault> {
        self.directory.take_fault()
    }

    /// The journal is a new one: its directory must have no manifest yet, and gets one.
    pub fn expect_new_journal(&mut self)
        ensures log { ⟦<System<'a, F> as Network>⟧.log self.new ≡ ⟦<System<'a, F> as Network>⟧.log self.old }
    {
        self.directory.expect_new();
    }

    /// A segment of the journal is full with this many bytes. It is set before the journal is read.
    pub fn set_segment(&mut self, limit: u64)
        ensures log { ⟦<System<'a, F> as Network>⟧.log self.new ≡ ⟦<System<'a, F> as Network>⟧.log self.old }
    {
        self.directory.set_segment(limit);
    }

    /// Secures the journal, if there is one. False if that fails.
    pub fn secure_journal(&mut self) -> bool {
        self.directory.secure()
    }

    /// The clients that were not served.
    pub fn unserved(&self) -> Unserved {
        self.unserved
    }
}

impl<'a, F: Locks + Net + Clock + Eprint + Clone + Drop> Network for System<'a, F> {
    type Connection = Connection;

    ghost log = { λ s. Some s.notes.acts };

    ghost number = { λ c. c.id };

    fn accept(&mut self, id: u64, slot: usize) -> Accept<Connection> {
        let accept = match &mut self.sockets {
            Some(sockets) => sockets.accept(id, slot),
            None => Accept::Fault,
        };
        self.notes.came(&accept, id, slot);
        if matches!(&accept, Accept::Later) {
            self.unserved.accepts = self.unserved.accepts.saturating_add(1);
        }
        self.note_fault();
        accept
    }

    fn wait(&mut self, time: Option<u32>, queue: &mut Queue) -> Option<bool> {
        if !self.started {
            self.tell_start();
        }
        self.directory.prepare();
        let sleeps = time != Some(0);
        let Some(sockets) = &mut self.sockets else {
            self.notes.waited(None, sleeps, &[]);
            return None;
        };
        let found = sockets.wait(time, queue);
        self.notes.waited(found, sleeps, sockets.told.as_slice());
        self.note_fault();
        found
    }

    fn read(&mut self, connection: &mut Connection, buf: &mut [u8]) -> Got {
        let got = match &mut self.sockets {
            Some(sockets) => sockets.read(connection, buf),
            None => Got::Fault,
        };
        self.notes.read(connection.id, got, buf);
        got
    }

    fn write(&mut self, connection: &mut Connection, bytes: &[u8]) -> Put {
        let put = match &mut self.sockets {
            Some(sockets) => sockets.write(connection, bytes),
            None => Put::Fault,
        };
        self.notes.wrote(connection.id, put, bytes);
        put
    }

    fn close(&mut self, connection: &mut Connection, how: How) {
        if how == How::Memory {
            self.unserved.memory = self.unserved.memory.saturating_add(1);
        }
        if let Some(sockets) = &mut self.sockets {
            sockets.close(how);
        }
        self.notes.closed(connection.id, how);
    }

    fn seconds(&mut self) -> Option<u64> {
        let sockets = self.sockets.as_mut()?;
        sockets.seconds()
    }

    fn is_full(&self, size: u64) -> bool {
        self.directory.is_full(size)
    }

    fn ask(&mut self) -> Question {
        let question = match &mut self.sockets {
            Some(sockets) => sockets.ask(),
            None => Question::Nothing,
        };
        self.notes.asked(question);
        question
    }

    fn report(&mut self, text: &[u8]) {
        if let Some(sockets) = &mut self.sockets {
            let tenants = self.directory.tenant_bytes();
            sockets.report(text, self.directory.counts(), tenants.as_slice());
        }
        self.notes.reported(text);
    }

    fn table(&mut self, text: &mut Vec<u8>) -> Result<(), Unread> {
        let read = self.fetch(text);
        self.notes.tabled(&read, text.as_slice());
        read
    }

    fn named(&mut self) -> Name {
        let name = match &mut self.sockets {
            Some(sockets) => sockets.named(),
            None => Name::of(b""),
        };
        self.notes.named(&name);
        name
    }

    fn reply(&mut self, text: &[u8]) {
        if let Some(sockets) = &mut self.sockets {
            sockets.reply(text);
        }
        self.notes.replied(text);
    }

    fn warn(&mut self, text: &[u8]) {
        if let Some(sockets) = &mut self.sockets {
            sockets.warn(text);
        }
        self.notes.warned(text);
    }

    fn takes(&mut self, connection: &Connection, tenant: &[u8], limit: Option<u64>) -> bool {
        let takes = self.directory.takes(tenant, limit);
        self.notes.took(connection.id, takes, tenant, limit);
        takes
    }

    fn begin(&mut self, segment: u64) -> bool {
        let done = self.directory.begin(segment);
        self.notes.began(done, segment);
        done
    }

    fn keep(&mut self, bytes: &[u8]) -> bool {
        let done = self.directory.keep(bytes);
        self.notes.kept(done, bytes);
        done
    }

    fn sync(&mut self) -> bool {
        let done = self.directory.sync();
        self.notes.synced(done);
        done
    }
}

impl<'a, F: Locks + Net + Clock + Eprint + Clone + Drop> Hosts for System<'a, F> {
    type File = TableFile<F::File>;

    fn secret(&mut self) -> Option<[u8; 16]> {
        let secret = read_secret(self.rt, random_file());
        match &secret {
            Some(secret) => self.notes.drawn(secret),
            None => self.notes.undrawn(),
        }
        secret
    }

    fn open(&mut self, path: &str) -> Option<TableFile<F::File>> {
        let opened = fs::open(self.rt, path);
        self.notes.opened(opened.is_ok(), path.as_bytes());
        match opened {
            Ok(file) => {
                self.keep_path(path);
                Some(TableFile::new(file))
            }
            Err(e) => {
                self.failed = Some(Failed::File(e));
                None
            }
        }
    }

    fn shut(&mut self, _file: TableFile<F::File>) {
        self.notes.shut();
    }

    fn bind(&mut self, alloc: Global, path: &str) -> bool {
        let made = self.bind_at(alloc, path);
        self.notes.bound(made, path.as_bytes());
        made
    }

    fn watch(&mut self, path: &str) -> bool {
        let made = self.watch_at(path);
        self.notes.watched(made, path.as_bytes());
        made
    }

    fn control(&mut self, path: &str) -> bool {
        let made = self.control_at(path);
        self.notes.controlled(made, path.as_bytes());
        made
    }
}

impl<'a, F: Locks + Net + Clock + Eprint + Clone + Drop> Journals for System<'a, F> {
    fn resume<P: Readies>(&mut self, alloc: Global, path: &str, player: &mut P) -> Option<Resumed> {
        self.directory.resume(alloc, path, player)
    }

    fn look<P: Readies>(&mut self, alloc: Global, path: &str, player: &mut P) -> bool {
        self.directory.look(alloc, path, player)
    }
}
