//! Runs lines one after another, and gathers the answers that are written at once in one buffer.
ghost use Rattle.std.specs.Prelude.{◌≡◌, ◌<◌, ◌≤◌, ◌+◌, ◌++◌, ◌∷◌, ℕ, List, [], length, option_map};
ghost use Rattle.judy_protocol.specs.Services.{HasLoggedIn};
ghost use Rattle.judy_protocol.specs.Talks.{HasNoLf, Gathers};

use crate::cutting::cut_line;
use crate::held::Held;
use crate::limits::{ANSWERS_LIMIT, REPLY_LIMIT};
use crate::service::Served;
use crate::turns::{asks_to_quit, hear, run};
use arrayvec::ArrayVec;
use judy_model::{KEY_LIMIT, ReplyRoom};
use std::alloc::Global;

/// Buffers for a line's key, for a key that a call finds, for the answer to a line, and for the
/// answers that are written at once.
#[derive(Drop)]
pub struct Rooms {
    /// A line's key.
    pub key: [u8; KEY_LIMIT],
    /// A key that a call finds.
    pub found: ReplyRoom,
    /// The answer to a line.
    pub reply: ArrayVec<u8, REPLY_LIMIT>,
    /// The answers that are written at once.
    pub answers: ArrayVec<u8, ANSWERS_LIMIT>,
}

/// Which answers are written at once, as one text.
#[derive(Clone, Copy, Debug, PartialEq, Eq)]
pub enum Batch {
    /// The answer to one line. It is written and flushed before the next line is run.
    EachReply,
    /// The answers to the lines of a read, as many as the buffer holds.
    EachRead,
}

/// How the gathering of answers ended.
#[derive(Clone, Copy, Debug, PartialEq, Eq)]
pub struct Gathered<'a> {
    /// The bytes after the last line that was run.
    pub rest: &'a [u8],
    /// Whether that line asked to quit.
    pub quit: bool,
}

/// Appends an answer.
fn append(answers: &mut ArrayVec<u8, ANSWERS_LIMIT>, text: &[u8])
    requires { length answers.old.items + length text.now ≤ ANSWERS_LIMIT }
    ensures { answers.new.items ≡ answers.old.items ++ text.now }
{
    let _fits = answers.try_extend_from_slice(text);
}

/// Runs the line that is held and ends with the chunk, and appends its answer to those gathered.
/// Returns whether the line asked to quit.
fn answer<S: Served>(
    alloc: Global,
    held: &mut Held,
    speaker: &mut Option<S::Speaker>,
    service: &mut S,
    rooms: &mut Rooms,
    chunk: &[u8],
) -> bool
    requires line { HasNoLf chunk.now }
    requires room { length rooms.old.answers.items + REPLY_LIMIT ≤ ANSWERS_LIMIT }
    requires known { HasLoggedIn (S.seen service.old).speakers (option_map S.who speaker.old) }
    ensures gathers { (text : List ℕ) × (rooms.new.answers.items ≡ rooms.old.answers.items ++ text)
        × Gathers S.made (S.seen service.old).logins Batch.EachReply (chunk.now ++ 10 ∷ []) result
        held.old held.new (option_map S.who speaker.old) (option_map S.who speaker.new)
        service.old service.new text }
    ensures short { length rooms.new.answers.items ≤ ANSWERS_LIMIT }
    ensures logins { (S.seen service.new).logins ≡ (S.seen service.old).logins }
    ensures speakers { (S.seen service.new).speakers ≡ (S.seen service.old).speakers }
    ensures known { HasLoggedIn (S.seen service.new).speakers (option_map S.who speaker.new) }
{
    let asked = hear(held, chunk, &mut rooms.key);
    let _changed = run(
        alloc,
        service,
        speaker,
        &asked,
        &mut rooms.found,
        &mut rooms.reply,
    );
    append(&mut rooms.answers, rooms.reply.as_slice());
    asks_to_quit(&asked)
}

/// Runs the line that is held and ends with the chunk, and gathers its answer, which replaces what was
/// gathered before. With `EachRead` it then runs the lines of the bytes after it in the same way, as
/// long as there is room for the longest answer, and up to a line that asks to quit.
pub fn gather<'a, S: Served>(
    alloc: Global,
    batch: Batch,
    held: &mut Held,
    speaker: &mut Option<S::Speaker>,
    service: &mut S,
    rooms: &mut Rooms,
    chunk: &[u8],
    after: &'a [u8],
) -> Gathered<'a>
    requires line { HasNoLf chunk.now }
    requires known { HasLoggedIn (S.seen service.old).speakers (option_map S.who speaker.old) }
    ensures gathers { (used : List ℕ) × (used ++ result.rest.now ≡ chunk.now ++ 10 ∷ after.now)
        × Gathers S.made (S.seen service.old).logins batch used result.quit
        held.old held.new (option_map S.who speaker.old) (option_map S.who speaker.new)
        service.old service.new rooms.new.answers.items }
    ensures fewer { length result.rest.now ≤ length after.now }
    ensures short { length rooms.new.answers.items ≤ ANSWERS_LIMIT }
    ensures logins { (S.seen service.new).logins ≡ (S.seen service.old).logins }
    ensures speakers { (S.seen service.new).speakers ≡ (S.seen service.old).speakers }
    ensures known { HasLoggedIn (S.seen service.new).speakers (option_map S.who speaker.new) }
{
    rooms.answers.clear();
    let mut rest = after;
    let mut quit = answer(alloc, held, speaker, service, rooms, chunk);
    match batch {
        Batch::EachReply => return Gathered { rest, quit },
        Batch::EachRead => {}
    }
    while !quit && rooms.answers.len() <= ANSWERS_LIMIT - REPLY_LIMIT {
        let Some((line, more)) = cut_line(rest) else {
            return Gathered { rest, quit: false };
        };
        quit = answer(alloc, held, speaker, service, rooms, line);
        rest = more;
    }
    Gathered { rest, quit }
}
