//! What was asked of the system, and its answers: a list that only clauses read.
ghost use Rattle.std.specs.Prelude.{◌≡◌, ℕ, List, [], ◌∷◌, ◌++◌, length, None};
ghost use Rattle.std.specs.Borrow.{ftrue};
ghost use Rattle.judy_many.specs.Nets.{Act, Fits, Takes, begin_acts, keep_acts, question_acts, read_acts, sync_acts, table_acts, takes_acts, wait_acts, write_acts};
ghost use Rattle.judy_many.specs.Nets.Act.{Asked, Closed, Named, Replied, Reported, Warned};
ghost use Rattle.judy_many.specs.Nets.Step.{Bound, Controlled, Drawn, Opened, Shut, Unbound, Uncontrolled, Undrawn, Unopened, Unwatched, Watched};
ghost use Rattle.judy_many.specs.Notes.{act_of, come_acts, how_of, question_of, step_if};

use crate::network::{Accept, Got, How, Put, Question, Unread};
use judy_model::Name;
use std::marker::{Model, PhantomData};

/// The acts so far, in order. It has no bytes.
#[derive(Drop)]
pub struct Record {
    marker: PhantomData<u8>,
    pub ghost acts: { List Act },
}

impl Model for Record {
    ghost also_owns = { λ _. ftrue };
}

/// The number of a reason to close.
fn number_of(how: How) -> u64
    ensures { how_of result ≡ how }
{
    match how {
        How::Quit => 0,
        How::End => 1,
        How::Fault => 2,
        How::Login => 3,
        How::Idle => 4,
        How::Over => 5,
        How::Memory => 6,
        How::Gone => 7,
        How::Kicked => 8,
    }
}

impl Record {
    /// No act yet.
    pub fn new() -> Record
        ensures { result.acts ≡ [] }
    {
        Record {
            marker: PhantomData,
        }
    }

    /// Notes an act.
    fn note(&mut self, _numbers: &[u64], _more: &[u64], _bytes: &[u8])
        ensures { self.new.acts ≡ self.old.acts ++ act_of _numbers.now _more.now _bytes.now ∷ [] }
    {}

    /// Notes an act of a connection.
    fn of_connection(&mut self, act: u64, connection: u64, number: u64, bytes: &[u8])
        ensures { self.new.acts
            ≡ self.old.acts ++ act_of (0 ∷ act ∷ connection ∷ number ∷ []) [] bytes.now ∷ [] }
    {
        self.note(&[0, act, connection, number], &[], bytes);
    }

    /// Notes an act of the server.
    fn of_server(&mut self, act: u64, number: u64, bytes: &[u8])
        ensures { self.new.acts ≡ self.old.acts ++ act_of (1 ∷ act ∷ number ∷ []) [] bytes.now ∷ [] }
    {
        self.note(&[1, act, number], &[], bytes);
    }

    /// Notes a step that is made before connections come.
    fn of_start(&mut self, step: u64, bytes: &[u8])
        ensures { self.new.acts ≡ self.old.acts ++ act_of (2 ∷ step ∷ []) [] bytes.now ∷ [] }
    {
        self.note(&[2, step], &[], bytes);
    }

    /// Notes the answer to an accept, for this number and this slot.
    pub fn came<C: Drop>(&mut self, accept: &Accept<C>, id: u64, slot: usize)
        ensures { self.new.acts ≡ self.old.acts ++ come_acts accept.now id slot }
    {
        match accept {
            Accept::Came(_) => self.of_connection(0, id, slot as u64, &[]),
            Accept::Nothing => {}
            Accept::Later => self.of_server(0, 0, &[]),
            Accept::Fault => self.of_server(2, 0, &[]),
        }
    }

    /// Notes the answer to a wait, which told of these slots.
    pub fn waited(&mut self, found: Option<bool>, sleeps: bool, told: &[u64])
        ensures { self.new.acts ≡ self.old.acts ++ wait_acts found sleeps told.now }
    {
        match found {
            Some(_) => self.note(&[1, 1, u64::from(sleeps)], told, &[]),
            None => self.of_server(2, 0, &[]),
        }
    }

    /// Notes the answer to a read into this buffer.
    pub fn read(&mut self, connection: u64, got: Got, buffer: &[u8])
        requires { Fits got (length buffer.now) }
        ensures { self.new.acts ≡ self.old.acts ++ read_acts got connection buffer.now }
    {
        match got {
            Got::Bytes(n) => self.of_connection(1, connection, 0, &buffer[..n]),
            Got::Nothing => self.of_connection(2, connection, 0, &[]),
            Got::End => self.of_connection(3, connection, 0, &[]),
            Got::Fault => self.of_connection(4, connection, 0, &[]),
        }
    }

    /// Notes the answer to a write of these bytes.
    pub fn wrote(&mut self, connection: u64, put: Put, bytes: &[u8])
        requires { Takes put (length bytes.now) }
        ensures { self.new.acts ≡ self.old.acts ++ write_acts put connection bytes.now }
    {
        match put {
            Put::Took(n) => self.of_connection(5, connection, 0, &bytes[..n]),
            Put::Fault => self.of_connection(6, connection, 0, &[]),
        }
    }

    /// Notes that a connection was closed.
    pub fn closed(&mut self, connection: u64, how: How)
        ensures { self.new.acts ≡ self.old.acts ++ Closed connection how ∷ [] }
    {
        self.of_connection(7, connection, number_of(how), &[]);
    }

    /// Notes whether the journal takes records of a tenant with this limit, before lines of a connection are run.
    pub fn took(&mut self, connection: u64, takes: bool, tenant: &[u8], limit: Option<u64>)
        ensures { self.new.acts ≡ self.old.acts ++ takes_acts takes connection tenant.now limit }
    {
        match limit {
            Some(limit) => {
                self.note(&[0, 8, connection, u64::from(takes)], &[limit], tenant);
            }
            None => self.of_connection(8, connection, u64::from(takes), tenant),
        }
    }

    /// Notes what the operator asked.
    pub fn asked(&mut self, question: Question)
        ensures { self.new.acts ≡ self.old.acts ++ question_acts question }
    {
        match question {
            Question::Nothing => {}
            Question::Status => self.of_server(3, 0, &[]),
            Question::Stop => self.of_server(3, 1, &[]),
            Question::Reload => self.of_server(3, 2, &[]),
            Question::Kick => self.of_server(3, 3, &[]),
        }
    }

    /// Notes the text of a status.
    pub fn reported(&mut self, text: &[u8])
        ensures { self.new.acts ≡ self.old.acts ++ Reported text.now ∷ [] }
    {
        self.of_server(4, 0, text);
    }

    /// Notes a line that was told to the operator.
    pub fn warned(&mut self, text: &[u8])
        ensures { self.new.acts ≡ self.old.acts ++ Warned text.now ∷ [] }
    {
        self.of_server(5, 0, text);
    }

    /// Notes that the file of the table was read again, or was not.
    pub fn tabled(&mut self, read: &Result<(), Unread>, text: &[u8])
        ensures { self.new.acts ≡ self.old.acts ++ table_acts read.now text.now }
    {
        match read {
            Ok(()) => self.of_server(6, 0, text),
            Err(_) => self.of_server(7, 0, &[]),
        }
    }

    /// Notes the name that a question has.
    pub fn named(&mut self, name: &Name)
        ensures { self.new.acts ≡ self.old.acts ++ Named name.now ∷ [] }
    {
        self.of_server(8, 0, name.as_bytes());
    }

    /// Notes the answer to a question.
    pub fn replied(&mut self, text: &[u8])
        ensures { self.new.acts ≡ self.old.acts ++ Replied text.now ∷ [] }
    {
        self.of_server(9, 0, text);
    }

    /// Notes that a segment of the journal was begun, or was not.
    pub fn began(&mut self, done: bool, segment: u64)
        ensures { self.new.acts ≡ self.old.acts ++ begin_acts done segment }
    {
        match done {
            true => self.of_server(10, segment, &[]),
            false => self.of_server(12, 0, &[]),
        }
    }

    /// Notes that bytes were appended to the journal, or were not.
    pub fn kept(&mut self, done: bool, bytes: &[u8])
        ensures { self.new.acts ≡ self.old.acts ++ keep_acts done bytes.now }
    {
        match done {
            true => self.of_server(11, 0, bytes),
            false => self.of_server(12, 0, &[]),
        }
    }

    /// Notes that the journal was synced, or was not.
    pub fn synced(&mut self, done: bool)
        ensures { self.new.acts ≡ self.old.acts ++ sync_acts done }
    {
        match done {
            true => self.of_server(13, 0, &[]),
            false => self.of_server(14, 0, &[]),
        }
    }

    /// Notes that a secret was drawn.
    pub fn drawn(&mut self, secret: &[u8])
        ensures { self.new.acts ≡ self.old.acts ++ Asked (Drawn secret.now) ∷ [] }
    {
        self.of_start(0, secret);
    }

    /// Notes that the system gave no random bytes.
    pub fn undrawn(&mut self)
        ensures { self.new.acts ≡ self.old.acts ++ Asked Undrawn ∷ [] }
    {
        self.of_start(1, &[]);
    }

    /// Notes that a file was opened, of whose bytes nothing is known, or was not.
    pub fn opened(&mut self, done: bool, path: &[u8])
        ensures { self.new.acts ≡ self.old.acts ++ step_if (λ it. Opened it None) Unopened done path.now }
    {
        match done {
            true => self.of_start(2, path),
            false => self.of_start(3, path),
        }
    }

    /// Notes that a file was closed.
    pub fn shut(&mut self)
        ensures { self.new.acts ≡ self.old.acts ++ Asked (Shut None) ∷ [] }
    {
        self.of_start(4, &[]);
    }

    /// Notes that the socket for connections was made, or was not.
    pub fn bound(&mut self, done: bool, path: &[u8])
        ensures { self.new.acts ≡ self.old.acts ++ step_if Bound Unbound done path.now }
    {
        match done {
            true => self.of_start(5, path),
            false => self.of_start(6, path),
        }
    }

    /// Notes that the status socket was made, or was not.
    pub fn watched(&mut self, done: bool, path: &[u8])
        ensures { self.new.acts ≡ self.old.acts ++ step_if Watched Unwatched done path.now }
    {
        match done {
            true => self.of_start(7, path),
            false => self.of_start(8, path),
        }
    }

    /// Notes that the control socket was made, or was not.
    pub fn controlled(&mut self, done: bool, path: &[u8])
        ensures { self.new.acts ≡ self.old.acts ++ step_if Controlled Uncontrolled done path.now }
    {
        match done {
            true => self.of_start(9, path),
            false => self.of_start(10, path),
        }
    }
}
