//! Lines that are refused since the journal does not take records of their tenant.
ghost use Rattle.std.specs.Prelude.{◌≡◌, ◌&&◌, true, option_map};
ghost use Rattle.judy_model.specs.declared.calls.Call.{Call as CallLem};
ghost use Rattle.judy_model.specs.declared.requests.Line.TheVariants as request;
ghost use Rattle.judy_model.specs.Stream.Heard.{Asked};
ghost use Rattle.judy_protocol.specs.Services.{HasLoggedIn, IsAsked};
ghost use Rattle.judy_protocol.specs.Talks.{as_heard};
ghost use Rattle.judy_many.specs.Barred.{HasRunUnless, Inquires, asks_change};
ghost use Rattle.judy_many.specs.Sessions.{barred_answer};

use crate::client::Client;
use crate::network::Network;
use crate::shows::Shows;
use arrayvec::ArrayVec;
use judy_model::ReplyRoom;
use judy_protocol::{Line, REPLY_LIMIT, Refusal, Served, run};
use std::alloc::Global;

/// Whether the journal takes records of the tenant that speaks on a client's connection. The system is asked only
/// with a journal, and where somebody speaks.
pub fn takes<S: Shows, N: Network>(
    network: &mut N,
    service: &S,
    client: &Client<S::Speaker, N::Connection>,
    keep: bool,
) -> bool
    requires known { HasLoggedIn (S.seen service.now).speakers
        (option_map S.who client.now.session.speaker) }
    ensures { Inquires (S.seen service.now).names (S.caps service.now) keep (N.number client.now.connection)
        (option_map S.who client.now.session.speaker) result (N.log network.old) (N.log network.new) }
{
    if !keep {
        return true;
    }
    let Some(speaker) = client.session.speaker else {
        return true;
    };
    let limit = service.journal_limit(speaker);
    network.takes(&client.connection, service.name(speaker), limit)
}

/// Whether a line asks for a call that changes arrays, and somebody speaks who makes it.
fn asks_change<S: Served>(speaker: Option<S::Speaker>, asked: &Result<Line<'_>, Refusal>) -> bool
    ensures { result ≡ asks_change (option_map S.who speaker) (as_heard asked.now) }
{
    if speaker.is_none() {
        return false;
    }
    match asked {
        Ok(Line::Call(call)) => call.changes(),
        Ok(Line::Auth(_, _)) => false,
        Ok(Line::Quit) => false,
        Ok(Line::Ping) => false,
        Ok(Line::Hello) => false,
        Err(_) => false,
    }
}

/// Whether a line is refused since the journal does not take its record: its speaker's records are not taken, and
/// it asks for a change.
pub fn is_barred<S: Served>(
    barred: bool,
    speaker: Option<S::Speaker>,
    asked: &Result<Line<'_>, Refusal>,
) -> bool
    ensures { result ≡ (barred && asks_change (option_map S.who speaker) (as_heard asked.now)) }
{
    barred && asks_change::<S>(speaker, asked)
}

/// Answers a line whose record the journal does not take.
fn refuse(answer: &mut ArrayVec<u8, REPLY_LIMIT>)
    ensures { answer.new.items ≡ barred_answer }
{
    answer.clear();
    let _fits = answer.try_extend_from_slice(b"ERR JOURNAL\n");
}

/// Runs what a line asks for, as `run` does. A line that is refused since the journal does not take its record makes
/// no call.
pub fn run_unless<S: Served>(
    barred: bool,
    alloc: Global,
    service: &mut S,
    speaker: &mut Option<S::Speaker>,
    asked: &Result<Line<'_>, Refusal>,
    found: &mut ReplyRoom,
    answer: &mut ArrayVec<u8, REPLY_LIMIT>,
) -> bool
    requires known { HasLoggedIn (S.seen service.old).speakers (option_map S.who speaker.old) }
    requires asked { (call : CallLem) → as_heard asked.now ≡ Asked (request.Call call) → IsAsked call }
    requires change { barred ≡ true → asks_change (option_map S.who speaker.old) (as_heard asked.now) ≡ true }
    ensures turn { HasRunUnless S.made (S.seen service.old).logins barred (as_heard asked.now)
        (option_map S.who speaker.old) (option_map S.who speaker.new)
        service.old service.new answer.new.items result }
    ensures logins { (S.seen service.new).logins ≡ (S.seen service.old).logins }
    ensures speakers { (S.seen service.new).speakers ≡ (S.seen service.old).speakers }
    ensures names { (S.seen service.new).names ≡ (S.seen service.old).names }
    ensures known { HasLoggedIn (S.seen service.new).speakers (option_map S.who speaker.new) }
{
    if barred {
        refuse(answer);
        return false;
    }
    run(alloc, service, speaker, asked, found, answer)
}
