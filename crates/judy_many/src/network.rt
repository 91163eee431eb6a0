//! What the loop asks of the system: to wait, to accept, to read, to write and to close.
ghost use Rattle.std.specs.Prelude.{◌≡◌, ◌<◌, ℕ, [], ◌∷◌, length};
ghost use Rattle.judy_many.specs.Nets.{Acts, DidLog, Fits, Takes, begin_acts, keep_acts, may_sleep, question_acts, read_acts, sync_acts, table_acts, takes_acts, write_acts};
ghost use Rattle.judy_many.specs.Nets.Act.{Closed, Named, Replied, Reported, Warned};
ghost use Rattle.judy_many.specs.Comes.{HasCome};
ghost use Rattle.judy_many.specs.Queues.{StayAwake};
ghost use Rattle.judy_many.specs.Woken.{HasWoken};

use crate::queue::Queue;
use judy_model::Name;

/// The answer to an accept.
#[derive(Drop)]
pub enum Accept<C: Drop> {
    /// This connection came.
    Came(C),
    /// No connection waits.
    Nothing,
    /// One waits, and cannot be accepted now: the process has too many open files, or the client has
    /// gone.
    Later,
    /// The listener is broken.
    Fault,
}

/// The answer to a read that does not wait.
#[derive(Clone, Copy, Debug, PartialEq, Eq)]
pub enum Got {
    /// This many bytes are at the front of the buffer: at least 1 and at most the buffer's length.
    Bytes(usize),
    /// Nothing has come.
    Nothing,
    /// The client sends no more.
    End,
    /// The read failed.
    Fault,
}

/// The answer to a write that does not wait.
#[derive(Clone, Copy, Debug, PartialEq, Eq)]
pub enum Put {
    /// This many bytes were taken from the front of the slice, at most its length.
    Took(usize),
    /// The write failed.
    Fault,
}

/// Why a connection is closed.
#[derive(Clone, Copy, Debug, PartialEq, Eq)]
pub enum How {
    /// A line asked to quit, and all answers are written.
    Quit,
    /// The client sends no more, and all answers are written.
    End,
    /// A read or a write failed.
    Fault,
    /// Nobody was logged in on it once it had lasted so long.
    Login,
    /// The client sent no byte and took none for too long.
    Idle,
    /// The connection lasted too long.
    Over,
    /// There is no memory for its buffers.
    Memory,
    /// Its tenant or its token is not in the table that was put in force, or the token has another right
    /// since its tenant is frozen or thawed.
    Gone,
    /// The operator asked that the connections of its tenant are closed.
    Kicked,
}

/// What the operator asks for on the status socket or the control socket.
#[derive(Clone, Copy, Debug, PartialEq, Eq)]
pub enum Question {
    /// Nothing, for now.
    Nothing,
    /// The status.
    Status,
    /// That the server ends.
    Stop,
    /// That the table is read again, or that a tenant is frozen or thawed.
    Reload,
    /// That the connections of a tenant are closed.
    Kick,
}

/// Why the file of the table, or an order, was not read.
#[derive(Clone, Copy, Debug, PartialEq, Eq)]
pub enum Unread {
    /// It cannot be opened, or a read of it failed.
    File,
    /// It is no regular file: a read of it could wait.
    Irregular,
    /// It is too long.
    Long,
    /// There is no memory for it.
    Memory,
}

/// When what was kept in the journal is put on the disk. A new segment is synced in any case.
#[derive(Clone, Copy, Debug, PartialEq, Eq)]
pub enum Sync {
    /// In each round, before its answers are written.
    Round,
    /// When this many seconds have passed since the last time.
    Seconds(u32),
    /// When the system does it.
    Never,
}

/// A listener and its connections, none of which waits.
pub trait Network {
    /// A connection.
    type Connection: Drop;

    /// The answers so far, where they are known.
    ghost log: { Self → Acts };

    /// The number of a connection.
    ghost number: { Self.Connection → ℕ };

    /// The next connection, which gets this number. `wait` tells of it at this slot.
    fn accept(&mut self, id: u64, slot: usize) -> Accept<Self::Connection>
        ensures { HasCome number result id slot (log self.old) (log self.new) };

    /// Waits until a connection is ready, or one can be accepted, or this many milliseconds have
    /// passed. Without a time there is no limit. Marks the slots whose connections became ready, in
    /// the order in which the system tells of them, and returns whether a connection can be accepted.
    /// None if the system fails for good. A slot that stands in the queue with a turn owed keeps it.
    fn wait(&mut self, time: Option<u32>, queue: &mut Queue) -> Option<bool>
        ensures stay { StayAwake queue.old queue.new }
        ensures log { HasWoken result (may_sleep time) queue.new (log self.old) (log self.new) };

    /// Reads what has come to the front of the buffer.
    fn read(&mut self, connection: &mut Self::Connection, buf: &mut [u8]) -> Got
        requires room { 0 < length buf.old }
        ensures fits { Fits result (length buf.new) }
        ensures same { number connection.new ≡ number connection.old }
        ensures log { DidLog (log self.old)
            (read_acts result (number connection.old) buf.new) (log self.new) };

    /// Writes bytes from the front of the slice. Where it does not take all of them, `wait` tells
    /// when the connection takes more.
    fn write(&mut self, connection: &mut Self::Connection, bytes: &[u8]) -> Put
        requires some { 0 < length bytes.now }
        ensures takes { Takes result (length bytes.now) }
        ensures same { number connection.new ≡ number connection.old }
        ensures log { DidLog (log self.old)
            (write_acts result (number connection.old) bytes.now) (log self.new) };

    /// Nothing more is read from the connection or written to it. It is dropped next.
    fn close(&mut self, connection: &mut Self::Connection, how: How)
        ensures { DidLog (log self.old)
            (Closed (number connection.old) how ∷ []) (log self.new) };

    /// The seconds since some time that does not change. None if the clock fails.
    fn seconds(&mut self) -> Option<u64>
        ensures { DidLog (log self.old) [] (log self.new) };

    /// Whether a segment of the journal with this many bytes is full, so that the next one is begun.
    fn is_full(&self, size: u64) -> bool;

    /// What the operator asks for on the status socket or the control socket, if there is one.
    fn ask(&mut self) -> Question
        ensures { DidLog (log self.old) (question_acts result) (log self.new) };

    /// Answers what was asked last. What the asker does not take at once is dropped.
    fn report(&mut self, text: &[u8])
        ensures { DidLog (log self.old) (Reported text.now ∷ []) (log self.new) };

    /// Tells a line to the operator, on standard error.
    fn warn(&mut self, text: &[u8])
        ensures { DidLog (log self.old) (Warned text.now ∷ []) (log self.new) };

    /// Reads what will be put in force into an empty text: the file of the table, or the line that asked
    /// to freeze or thaw a tenant.
    fn table(&mut self, text: &mut Vec<u8>) -> Result<(), Unread>
        ensures { DidLog (log self.old) (table_acts result text.new.items) (log self.new) };

    /// The name of the tenant that the last question named. Empty if it named none.
    fn named(&mut self) -> Name
        ensures { DidLog (log self.old) (Named result ∷ []) (log self.new) };

    /// Answers what was asked last, with this text alone.
    fn reply(&mut self, text: &[u8])
        ensures { DidLog (log self.old) (Replied text.now ∷ []) (log self.new) };

    /// Whether the journal takes records of the tenant of this name, which may have this many bytes of them since
    /// the last snapshot, if there is a limit. It is asked before lines of this connection are run.
    fn takes(&mut self, connection: &Self::Connection, tenant: &[u8], limit: Option<u64>) -> bool
        ensures { DidLog (log self.old)
            (takes_acts result (number connection.now) tenant.now limit) (log self.new) };

    /// Makes the file of this segment of the journal, and syncs its directory. False if that fails.
    fn begin(&mut self, segment: u64) -> bool
        ensures { DidLog (log self.old) (begin_acts result segment) (log self.new) };

    /// Appends bytes to the segment of the journal that was begun last. False if that fails; then some
    /// of them may be appended.
    fn keep(&mut self, bytes: &[u8]) -> bool
        requires some { 0 < length bytes.now }
        ensures { DidLog (log self.old) (keep_acts result bytes.now) (log self.new) };

    /// Puts all that was appended to the journal on the disk. False if that fails.
    fn sync(&mut self) -> bool
        ensures { DidLog (log self.old) (sync_acts result) (log self.new) };
}
