//! A session: the lines of one connection, run as they come, with their answers in a buffer.
ghost use Rattle.std.specs.Prelude.{◌≡◌, false, true, ◌<◌, ◌≤◌, ◌+◌, ◌++◌, ◌∷◌, ℕ, List, [], None, length, IfSome, IsTrue, is_some, option_map};
ghost use Rattle.judy_protocol.specs.Services.{HasLoggedIn};
ghost use Rattle.judy_protocol.specs.Talks.{HasNoLf, Holds};
ghost use Rattle.judy_many.specs.Barred.{AreBarred, AreFree};
ghost use Rattle.judy_many.specs.Books.{has_room, noted_by};
ghost use Rattle.judy_many.specs.Lives.{view_of};
ghost use Rattle.judy_many.specs.Others.{AreLimited};
ghost use Rattle.judy_many.specs.Present.{speakers_at};
ghost use Rattle.judy_many.specs.Records.{records_of};
ghost use Rattle.judy_many.specs.Rules.{rules_of};
ghost use Rattle.judy_many.specs.Sessions.{Steps, Turn};
ghost use Rattle.judy_many.specs.Watches.{HasLine, LeavesLine};

use crate::barring::{is_barred, run_unless};
use crate::client::Client;
use crate::keeping::Keeper;
use crate::network::Network;
use crate::others::{is_login, limit_login};
use crate::serve::Limits;
use crate::shows::Shows;
use arrayvec::ArrayVec;
use judy_model::{KEY_LIMIT, LINE_LIMIT, ReplyRoom};
use judy_protocol::{
    ANSWERS_LIMIT, Held, REPLY_LIMIT, asks_to_quit, cut_line, hear_line, join_line, squeeze,
    whole_line,
};
use std::alloc::Global;

/// Buffers for a line's key, for a key that a call finds, for the answer to a line, and for the line in its
/// short spelling.
#[derive(Drop)]
pub struct Rooms {
    key: [u8; KEY_LIMIT],
    found: ReplyRoom,
    reply: ArrayVec<u8, REPLY_LIMIT>,
    short: ArrayVec<u8, LINE_LIMIT>,
}

impl Rooms {
    /// Empty buffers.
    pub fn new() -> Rooms {
        Rooms {
            key: [0u8; KEY_LIMIT],
            found: ReplyRoom::new(),
            reply: ArrayVec::new(),
            short: ArrayVec::new(),
        }
    }
}

/// What a connection keeps from one line to the next: what has come of the next line, who speaks, and
/// whether its lines are refused.
#[derive(Drop)]
pub struct Session<P: Copy> {
    /// What has come of the next line.
    pub held: Held,
    /// Who has logged in.
    pub speaker: Option<P>,
    /// Whether lines that would change arrays are refused in this turn: the journal does not take records of
    /// the speaker's tenant.
    pub barred: bool,
    /// Whether the last line was a log-in. With a journal it ends the turn, and the journal is asked again.
    pub fresh: bool,
}

impl<P: Copy> Session<P> {
    /// A session in which nothing has come and nobody has logged in.
    pub fn new() -> Session<P>
        ensures held { Holds [] result.held }
        ensures nobody { result.speaker ≡ None }
    {
        Session {
            held: Held::new(),
            speaker: None,
            barred: false,
            fresh: false,
        }
    }
}

/// How the running of lines ended.
#[derive(Clone, Copy, Debug, PartialEq, Eq)]
pub struct Ran {
    /// How many bytes were not heard: lines for whose answers or records there was no room, or what
    /// comes after a line that asked to quit.
    pub left: usize,
    /// Whether the last line asked to quit.
    pub quit: bool,
}

/// Appends an answer.
fn append(answers: &mut ArrayVec<u8, ANSWERS_LIMIT>, text: &[u8])
    requires { length answers.old.items + length text.now ≤ ANSWERS_LIMIT }
    ensures { answers.new.items ≡ answers.old.items ++ text.now }
{
    let _fits = answers.try_extend_from_slice(text);
}

/// Adds the record of a line that was run to those that the journal must keep, if it may have changed arrays. The
/// record has the line in its short spelling, which is put into `short`.
fn note_line<S: Shows>(
    keeper: &mut Keeper,
    service: &S,
    speaker: Option<S::Speaker>,
    line: Option<&[u8]>,
    changed: bool,
    short: &mut ArrayVec<u8, LINE_LIMIT>,
)
    requires known { HasLoggedIn (S.seen service.now).speakers (option_map S.who speaker) }
    requires short { IfSome line (λ b. HasNoLf b.now × (length b.now ≤ LINE_LIMIT)) }
    requires room { IsTrue (has_room keeper.old) }
    ensures { keeper.new ≡ noted_by (records_of changed (S.seen service.now).names
        (option_map S.who speaker) (option_map (λ b. b.now) line.entry)) keeper.old }
{
    if !changed {
        return;
    }
    if keeper.is_none() {
        return;
    }
    let Some(speaker) = speaker else {
        return;
    };
    let Some(line) = line else {
        return;
    };
    squeeze(line, short);
    keeper.note(service.name(speaker), short.as_slice());
}

/// Runs the line that is held and ends with the chunk, counts it, notes its record, and appends its
/// answer. A line whose record the journal does not take is refused, and so is a log-in if its tenant speaks on
/// `most` of the other connections. Returns whether the line asked to quit.
pub fn run_line<S: Shows, N: Network>(
    alloc: Global,
    session: &mut Session<S::Speaker>,
    service: &mut S,
    rooms: &mut Rooms,
    chunk: &[u8],
    others: &[Option<Box<Client<S::Speaker, N::Connection>>>],
    answers: &mut ArrayVec<u8, ANSWERS_LIMIT>,
    keeper: &mut Keeper,
    most: Option<u32>,
) -> bool
    requires line { HasNoLf chunk.now }
    requires journal { IsTrue (has_room keeper.old) }
    requires room { length answers.old.items + REPLY_LIMIT ≤ ANSWERS_LIMIT }
    requires known { HasLoggedIn (S.seen service.old).speakers (option_map S.who session.old.speaker) }
    ensures steps { (turn : Turn)
        × AreLimited most (speakers_at (λ b. view_of S.who N.number b.value) others.now) (turn ∷ [])
        × AreBarred session.old.barred (option_map S.who session.old.speaker) (turn ∷ [])
        × Steps (rules_of S.made S.seen S.noted S.status S.changed S.caps S.leavers)
        (chunk.now ++ 10 ∷ []) (turn ∷ []) result
        session.old.held session.new.held
        (option_map S.who session.old.speaker) (option_map S.who session.new.speaker)
        service.old service.new answers.old.items answers.new.items keeper.old keeper.new }
    ensures logins { (S.seen service.new).logins ≡ (S.seen service.old).logins }
    ensures speakers { (S.seen service.new).speakers ≡ (S.seen service.old).speakers }
    ensures known { HasLoggedIn (S.seen service.new).speakers (option_map S.who session.new.speaker) }
    ensures barred { session.new.barred ≡ session.old.barred }
    ensures fresh { session.new.fresh ≡ false
        → option_map S.who session.new.speaker ≡ option_map S.who session.old.speaker }
{
    let joined = join_line(&mut session.held, chunk);
    let line = whole_line(&session.held, chunk, joined);
    let asked = hear_line(line, &mut rooms.key);
    let barred = is_barred::<S>(session.barred, session.speaker, &asked);
    let changed = run_unless(
        barred,
        alloc,
        service,
        &mut session.speaker,
        &asked,
        &mut rooms.found,
        &mut rooms.reply,
    );
    limit_login::<S, N>(
        &*service,
        &asked,
        &mut session.speaker,
        others,
        most,
        &mut rooms.reply,
    );
    service.note(session.speaker, &asked, rooms.reply.as_slice());
    note_line(
        keeper,
        &*service,
        session.speaker,
        line,
        changed,
        &mut rooms.short,
    );
    append(answers, rooms.reply.as_slice());
    let quit = asks_to_quit(&asked);
    session.fresh = is_login(&asked);
    session.held.clear();
    quit
}

/// Whether no further line is run in this turn: where there is one client at most, one line is, and with a
/// journal a log-in is the last.
fn is_enough<P: Copy>(limits: Limits, session: &Session<P>) -> bool
    ensures one { limits.clients ≡ 1 → result ≡ true }
    ensures fresh { result ≡ false → is_some limits.journal ≡ true → session.now.fresh ≡ false }
{
    limits.clients == 1 || (session.fresh && limits.journal.is_some())
}

/// Whether the next line is run in this turn: enough were not, and there is room for the longest answer
/// and for the longest record.
fn may_run(answers: &ArrayVec<u8, ANSWERS_LIMIT>, keeper: &Keeper, enough: bool) -> bool
    ensures room { result ≡ true → length answers.now.items + REPLY_LIMIT ≤ ANSWERS_LIMIT }
    ensures journal { result ≡ true → IsTrue (has_room keeper.now) }
    ensures more { result ≡ true → enough ≡ false }
    ensures first { enough ≡ false → answers.now.items ≡ [] → IsTrue (has_room keeper.now) → result ≡ true }
{
    if enough {
        return false;
    }
    if answers.len() > ANSWERS_LIMIT - REPLY_LIMIT {
        return false;
    }
    keeper.has_room()
}

/// Runs the lines that the bytes complete, as long as there is room for the longest answer and for the
/// longest record, and up to a line that asks to quit or, with a journal, to a log-in; where there is one
/// client at most, one line. Holds what comes after the last line feed.
pub fn run_lines<S: Shows, N: Network>(
    alloc: Global,
    session: &mut Session<S::Speaker>,
    service: &mut S,
    rooms: &mut Rooms,
    bytes: &[u8],
    others: &[Option<Box<Client<S::Speaker, N::Connection>>>],
    answers: &mut ArrayVec<u8, ANSWERS_LIMIT>,
    keeper: &mut Keeper,
    limits: Limits,
) -> Ran
    requires known { HasLoggedIn (S.seen service.old).speakers (option_map S.who session.old.speaker) }
    ensures steps { (used : List ℕ) × (rest : List ℕ) × (turns : List Turn)
        × (used ++ rest ≡ bytes.now) × (length rest ≡ result.left)
        × LeavesLine result.quit rest
        × ((HasLine bytes.now × IsTrue (has_room keeper.old) × (answers.old.items ≡ [])) → 0 < length turns)
        × AreLimited limits.tenant_clients (speakers_at (λ b. view_of S.who N.number b.value) others.now) turns
        × (is_some limits.journal ≡ true → AreBarred session.old.barred (option_map S.who session.old.speaker) turns)
        × (session.old.barred ≡ false → AreFree turns)
        × (limits.clients ≡ 1 → length turns ≤ 1)
        × Steps (rules_of S.made S.seen S.noted S.status S.changed S.caps S.leavers)
        used turns result.quit
        session.old.held session.new.held
        (option_map S.who session.old.speaker) (option_map S.who session.new.speaker)
        service.old service.new answers.old.items answers.new.items keeper.old keeper.new }
    ensures left { result.left ≤ length bytes.now }
    ensures more { length answers.old.items ≤ length answers.new.items }
    ensures logins { (S.seen service.new).logins ≡ (S.seen service.old).logins }
    ensures speakers { (S.seen service.new).speakers ≡ (S.seen service.old).speakers }
    ensures known { HasLoggedIn (S.seen service.new).speakers (option_map S.who session.new.speaker) }
{
    let mut rest = bytes;
    let mut enough = false;
    while let Some((chunk, after)) = cut_line(rest) {
        if !may_run(&*answers, &*keeper, enough) {
            return Ran {
                left: rest.len(),
                quit: false,
            };
        }
        rest = after;
        if run_line::<S, N>(
            alloc,
            session,
            service,
            rooms,
            chunk,
            others,
            answers,
            keeper,
            limits.tenant_clients,
        ) {
            return Ran {
                left: rest.len(),
                quit: true,
            };
        }
        enough = is_enough(limits, &*session);
    }
    session.held.hold(rest);
    Ran {
        left: 0,
        quit: false,
    }
}
