//! The turn of one line: what it asks for, what it does to the service, and its answer.
ghost use Rattle.std.specs.Prelude.{◌≡◌, ◌++◌, ◌<◌, ◌≤◌, [], ◌∷◌, ℕ, List, length, not, option_map, ◌&&◌, IfSome, MatchOption};
ghost use Rattle.std.specs.Str.Lines.{strip_carriage_return};
ghost use Rattle.judy_model.specs.declared.calls.Call.{Call as CallLem};
ghost use Rattle.judy_model.specs.declared.requests.Line.TheVariants as request;
ghost use Rattle.judy_model.specs.Replies.{line};
ghost use Rattle.judy_model.specs.Stream.{greeting, heard, is_quit, welcome};
ghost use Rattle.judy_model.specs.Stream.Heard.{Asked};
ghost use Rattle.judy_model.specs.Tenant.{changes};
ghost use Rattle.judy_protocol.specs.Plain.{is_refused as is_refused_lem, says_unchanged as says_unchanged_lem};
ghost use Rattle.judy_protocol.specs.Services.{HasLoggedIn, IsAsked};
ghost use Rattle.judy_protocol.specs.Talks.{HasNoLf, HasRun, Holds, IsJoined, as_heard, heard_bare};

use crate::cutting::bare;
use crate::held::Held;
use crate::limits::REPLY_LIMIT;
use crate::replies::write_reply;
use crate::requests::read_line;
use crate::service::Served;
use arrayvec::ArrayVec;
use judy_model::{Call, KEY_LIMIT, LINE_LIMIT, Line, Name, Reply, ReplyRoom, Token};
use std::alloc::Global;

/// Why a line is refused.
#[derive(Clone, Copy, Debug, PartialEq, Eq)]
pub enum Refusal {
    /// It is longer than `LINE_LIMIT` bytes.
    Long,
    /// It is not a request.
    Syntax,
}

/// Puts a chunk behind what is held of its line. False if nothing is held: then the chunk alone is
/// the line, and nothing is held of it.
#[inline(always)]
pub fn join_line(held: &mut Held, chunk: &[u8]) -> bool
    requires { HasNoLf chunk.now }
    ensures joined { (rest : List ℕ) → Holds rest held.old
        → IsJoined result (rest ++ chunk.now) held.new chunk.now }
{
    if held.is_empty() {
        return false;
    }
    held.hold(chunk);
    true
}

/// The bytes of a line that is not too long, without one CR at their end.
#[inline(always)]
fn bare_line(line: &[u8]) -> Option<&[u8]>
    requires { HasNoLf line.now }
    ensures bare { MatchOption result (LINE_LIMIT < length line.now)
        (λ b. (b.now ≡ strip_carriage_return line.now) × (length line.now ≤ LINE_LIMIT)) }
    ensures short { IfSome result (λ b. HasNoLf b.now × (length b.now ≤ LINE_LIMIT)) }
{
    if line.len() > LINE_LIMIT {
        return None;
    }
    Some(bare(line))
}

/// The bytes of the line that ends with the chunk, without one CR at their end. `joined` says that
/// the line is held. None if it is too long.
#[inline(always)]
pub fn whole_line<'a>(held: &'a Held, chunk: &'a [u8], joined: bool) -> Option<&'a [u8]>
    requires { HasNoLf chunk.now }
    ensures bare { (line : List ℕ) → IsJoined joined line held.now chunk.now
        → MatchOption result (LINE_LIMIT < length line)
        (λ b. (b.now ≡ strip_carriage_return line) × (length line ≤ LINE_LIMIT)) }
    ensures short { IfSome result (λ b. HasNoLf b.now × (length b.now ≤ LINE_LIMIT)) }
{
    if !joined {
        return bare_line(chunk);
    }
    if held.long {
        return None;
    }
    bare_line(held.bytes.as_slice())
}

/// What a line asks for: its bytes without one CR at their end, or None if it is too long.
#[inline(always)]
pub fn hear_line<'a>(
    line: Option<&[u8]>,
    room: &'a mut [u8; KEY_LIMIT],
) -> Result<Line<'a>, Refusal>
    ensures heard { as_heard result ≡ heard_bare (option_map (λ b. b.now) line.entry) }
    ensures asked { (call : CallLem) → as_heard result ≡ Asked (request.Call call) → IsAsked call }
{
    let line = line.ok_or(Refusal::Long)?;
    read_line(line, room).map_err(|_| Refusal::Syntax)
}

/// What the line that is held and ends with the chunk asks for. Nothing is held afterwards.
#[inline(always)]
pub fn hear<'a>(
    held: &mut Held,
    chunk: &[u8],
    room: &'a mut [u8; KEY_LIMIT],
) -> Result<Line<'a>, Refusal>
    requires { HasNoLf chunk.now }
    ensures heard { (rest : List ℕ) → Holds rest held.old
        → as_heard result ≡ heard (rest ++ chunk.now) }
    ensures asked { (call : CallLem) → as_heard result ≡ Asked (request.Call call) → IsAsked call }
    ensures empty { Holds [] held.new }
{
    let joined = join_line(held, chunk);
    let asked = hear_line(whole_line(&*held, chunk, joined), room);
    held.clear();
    asked
}

/// Whether the line asks to quit.
pub fn asks_to_quit(asked: &Result<Line<'_>, Refusal>) -> bool
    ensures { result ≡ is_quit (as_heard asked.now) }
{
    match asked {
        Ok(Line::Quit) => true,
        Ok(Line::Auth(_, _)) => false,
        Ok(Line::Ping) => false,
        Ok(Line::Hello) => false,
        Ok(Line::Call(_)) => false,
        Err(_) => false,
    }
}

/// Writes a fixed answer.
fn put_answer(answer: &mut ArrayVec<u8, REPLY_LIMIT>, text: &'static [u8])
    requires { length text.now ≤ REPLY_LIMIT }
    ensures { answer.new.items ≡ text.now }
{
    answer.clear();
    let _fits = answer.try_extend_from_slice(text);
}

/// Answers a line that asks for the version and the limits of the protocol.
fn greet(answer: &mut ArrayVec<u8, REPLY_LIMIT>)
    ensures { answer.new.items ≡ line greeting }
{
    put_answer(
        answer,
        b"JUDYD 1 line 4096 reply 4096 name 32 token 128 key 1000\n",
    );
}

/// Logs in the speaker with this name and token, if any, and writes the answer.
fn let_in<S: Served>(
    service: &S,
    name: &Name,
    token: &Token<'_>,
    answer: &mut ArrayVec<u8, REPLY_LIMIT>,
) -> Option<S::Speaker>
    ensures who { option_map S.who result ≡ (S.seen service.now).logins name.now token.now }
    ensures known { HasLoggedIn (S.seen service.now).speakers (option_map S.who result) }
    ensures answer { answer.new.items ≡ welcome ((S.seen service.now).logins name.now token.now) }
{
    match service.login(name.as_bytes(), token.as_bytes()) {
        Some(speaker) => {
            put_answer(answer, b"OK\n");
            Some(speaker)
        }
        None => {
            put_answer(answer, b"ERR AUTH\n");
            None
        }
    }
}

/// Whether the reply refuses the call.
fn is_refused(reply: &Reply<'_>) -> bool
    ensures { result ≡ is_refused_lem reply.now }
{
    matches!(
        reply,
        Reply::Full | Reply::ReadOnly | Reply::Frozen | Reply::Memory
    )
}

/// Whether the reply says that nothing changed: it refuses the call, or all was so before.
fn says_unchanged(call: &Call<'_>, reply: &Reply<'_>) -> bool
    ensures { result ≡ says_unchanged_lem call.now reply.now }
{
    is_refused(reply) || call.leaves(reply)
}

/// Whether a call with this reply may have changed arrays.
fn counts(call: &Call<'_>, reply: &Reply<'_>) -> bool
    ensures { result ≡ (changes call.now && not (says_unchanged_lem call.now reply.now)) }
{
    call.changes() && !says_unchanged(call, reply)
}

/// Makes a call for the speaker, and writes the answer. Without a speaker the answer is `ERR AUTH`.
/// Returns whether the call may have changed arrays, so that it is recorded.
fn make_call<S: Served>(
    alloc: Global,
    service: &mut S,
    speaker: Option<S::Speaker>,
    call: &Call<'_>,
    found: &mut ReplyRoom,
    answer: &mut ArrayVec<u8, REPLY_LIMIT>,
) -> bool
    requires known { HasLoggedIn (S.seen service.old).speakers (option_map S.who speaker) }
    requires asked { IsAsked call.now }
    ensures turn { HasRun S.made (S.seen service.old).logins (Asked (request.Call call.now))
        (option_map S.who speaker) (option_map S.who speaker)
        service.old service.new answer.new.items result }
    ensures logins { (S.seen service.new).logins ≡ (S.seen service.old).logins }
    ensures speakers { (S.seen service.new).speakers ≡ (S.seen service.old).speakers }
    ensures names { (S.seen service.new).names ≡ (S.seen service.old).names }
{
    match speaker {
        Some(speaker) => {
            let reply = service.call(alloc, speaker, call, found);
            write_reply(&reply, answer);
            return counts(call, &reply);
        }
        None => put_answer(answer, b"ERR AUTH\n"),
    }
    false
}

/// Runs what a line asks for, and writes its answer. It replaces the contents of the buffer.
/// Returns whether the line made a call that may have changed arrays, so that it is recorded.
pub fn run<S: Served>(
    alloc: Global,
    service: &mut S,
    speaker: &mut Option<S::Speaker>,
    asked: &Result<Line<'_>, Refusal>,
    found: &mut ReplyRoom,
    answer: &mut ArrayVec<u8, REPLY_LIMIT>,
) -> bool
    requires known { HasLoggedIn (S.seen service.old).speakers (option_map S.who speaker.old) }
    requires asked { (call : CallLem) → as_heard asked.now ≡ Asked (request.Call call)
        → IsAsked call }
    ensures turn { HasRun S.made (S.seen service.old).logins (as_heard asked.now)
        (option_map S.who speaker.old) (option_map S.who speaker.new)
        service.old service.new answer.new.items result }
    ensures logins { (S.seen service.new).logins ≡ (S.seen service.old).logins }
    ensures speakers { (S.seen service.new).speakers ≡ (S.seen service.old).speakers }
    ensures names { (S.seen service.new).names ≡ (S.seen service.old).names }
    ensures known { HasLoggedIn (S.seen service.new).speakers (option_map S.who speaker.new) }
{
    match asked {
        Ok(Line::Auth(name, token)) => *speaker = let_in(service, name, token, answer),
        Ok(Line::Quit) => put_answer(answer, b"BYE\n"),
        Ok(Line::Ping) => put_answer(answer, b"OK\n"),
        Ok(Line::Hello) => greet(answer),
        Ok(Line::Call(call)) => return make_call(alloc, service, *speaker, call, found, answer),
        Err(Refusal::Long) => put_answer(answer, b"ERR LONG\n"),
        Err(Refusal::Syntax) => put_answer(answer, b"ERR SYNTAX\n"),
    }
    false
}
