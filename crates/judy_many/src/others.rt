//! How many connections a tenant has, and log-ins that are refused since it has enough.
ghost use Rattle.std.specs.Prelude.{◌≡◌, ◌≤◌, count_by, if◌then◌else◌, option_map};
ghost use Rattle.judy_protocol.specs.Talks.{as_heard};
ghost use Rattle.judy_many.specs.Lives.{view_of};
ghost use Rattle.judy_many.specs.Others.{claim_in, is_crowded, is_login, speaks_for};
ghost use Rattle.judy_many.specs.Present.{speaker_at, speakers_at};
ghost use Rattle.judy_many.specs.Sessions.{crowded_answer, unless_crowded};

use crate::client::Client;
use crate::network::Network;
use crate::shows::Shows;
use arrayvec::ArrayVec;
use judy_protocol::{Line, REPLY_LIMIT, Refusal};

/// Whether a tenant speaks.
fn speaks_for<S: Shows>(service: &S, speaker: Option<S::Speaker>, tenant: usize) -> bool
    ensures { result ≡ speaks_for tenant (option_map S.who speaker) }
{
    match speaker {
        Some(speaker) => service.tenant(speaker) == tenant,
        None => false,
    }
}

/// 1 if a slot has a client and the tenant speaks on its connection, otherwise 0.
fn count_at<S: Shows, N: Network>(
    service: &S,
    slot: &Option<Box<Client<S::Speaker, N::Connection>>>,
    tenant: usize,
) -> usize
    ensures count { result ≡ count_by (speaks_for tenant)
        (speaker_at (λ b. view_of S.who N.number b.value) slot.now) }
    ensures few { result ≤ 1 }
{
    let Some(client) = slot else {
        return 0;
    };
    if speaks_for(service, client.session.speaker, tenant) {
        return 1;
    }
    0
}

/// On how many of the connections in these slots a tenant speaks.
fn count<S: Shows, N: Network>(
    service: &S,
    slots: &[Option<Box<Client<S::Speaker, N::Connection>>>],
    tenant: usize,
) -> usize
    ensures { result ≡ count_by (speaks_for tenant)
        (speakers_at (λ b. view_of S.who N.number b.value) slots.now) }
{
    let mut count = 0usize;
    for at in 0..slots.len() {
        count += count_at::<S, N>(service, &slots[at], tenant);
    }
    count
}

/// Whether the tenant of a speaker speaks on as many of the connections in these slots as it may have.
fn is_crowded<S: Shows, N: Network>(
    service: &S,
    speaker: Option<S::Speaker>,
    slots: &[Option<Box<Client<S::Speaker, N::Connection>>>],
    most: Option<u32>,
) -> bool
    ensures { result ≡ is_crowded most (speakers_at (λ b. view_of S.who N.number b.value) slots.now)
        (option_map S.who speaker) }
{
    let Some(most) = most else {
        return false;
    };
    let Some(speaker) = speaker else {
        return false;
    };
    count::<S, N>(service, slots, service.tenant(speaker)) >= most as usize
}

/// Whether a line is a log-in.
pub fn is_login(asked: &Result<Line<'_>, Refusal>) -> bool
    ensures { result ≡ is_login (as_heard asked.now) }
{
    match asked {
        Ok(Line::Auth(_, _)) => true,
        Ok(Line::Quit) => false,
        Ok(Line::Ping) => false,
        Ok(Line::Hello) => false,
        Ok(Line::Call(_)) => false,
        Err(_) => false,
    }
}

/// Refuses the log-in that a line was, if this speaker's tenant speaks on as many of the other connections
/// as it may have. Then nobody speaks. Returns whether it was refused.
pub fn limit_login<S: Shows, N: Network>(
    service: &S,
    asked: &Result<Line<'_>, Refusal>,
    speaker: &mut Option<S::Speaker>,
    others: &[Option<Box<Client<S::Speaker, N::Connection>>>],
    most: Option<u32>,
    answer: &mut ArrayVec<u8, REPLY_LIMIT>,
) -> bool
    ensures crowded { result ≡ is_crowded most (speakers_at (λ b. view_of S.who N.number b.value) others.now)
        (claim_in (as_heard asked.now) (option_map S.who speaker.old)) }
    ensures speaker { option_map S.who speaker.new ≡ unless_crowded result (option_map S.who speaker.old) }
    ensures answer { answer.new.items ≡ (if result then crowded_answer else answer.old.items) }
{
    if !is_login(asked) {
        return false;
    }
    if !is_crowded::<S, N>(service, *speaker, others, most) {
        return false;
    }
    *speaker = None;
    answer.clear();
    let _fits = answer.try_extend_from_slice(b"ERR CLIENTS\n");
    true
}
