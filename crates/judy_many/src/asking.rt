//! Answers what the operator asks for.
ghost use Rattle.std.specs.Prelude.{◌≡◌, IfOk, map, option_map};
ghost use Rattle.judy_many.specs.Lives.{view_of};
ghost use Rattle.judy_many.specs.Present.{speakers_at};
ghost use Rattle.judy_many.specs.Statuses.{HasAnswered, IsStatus};

use crate::clients::Clients;
use crate::network::{Network, Question};
use crate::serve::Limits;
use crate::shows::Shows;
use judy_protocol::Served;
use std::alloc::{AllocError, Global};

/// Who speaks on each open connection, slot by slot.
fn speakers<S: Served, N: Network>(
    alloc: Global,
    clients: &Clients<S, N>,
) -> Result<Vec<Option<S::Speaker>>, AllocError>
    ensures { IfOk result (λ who. map (option_map S.who) who.items
        ≡ speakers_at (λ b. view_of S.who N.number b.value) clients.now.slots.items) }
{
    let mut speakers = Vec::new(alloc);
    for at in 0..clients.slots.len() {
        if let Some(client) = &clients.slots[at] {
            speakers.push(client.session.speaker)?;
        }
    }
    Ok(speakers)
}

/// Makes the status in a buffer. No bytes if there is no memory for it.
fn make<S: Shows, N: Network>(
    alloc: Global,
    service: &S,
    clients: &Clients<S, N>,
    text: &mut Vec<u8>,
)
    ensures { IsStatus (S.status service.now
        (speakers_at (λ b. view_of S.who N.number b.value) clients.now.slots.items)) text.new.items }
{
    text.clear();
    let Ok(speakers) = speakers(alloc, clients) else {
        return;
    };
    if service.show(speakers.as_slice(), text).is_err() {
        text.clear();
    }
}

/// How the loop goes on after it asked.
#[derive(Clone, Copy, Debug, PartialEq, Eq)]
pub enum Next {
    /// With the next round.
    Round,
    /// The table is read again first, or a tenant is frozen or thawed.
    Reload,
    /// Connections of a tenant are closed first.
    Kick,
    /// The server ends.
    Stop,
}

/// Asks once, if the operator has a socket. A question for the status is answered with that of the
/// service and of its connections at this moment. Returns how the loop goes on.
pub fn answer<S: Shows, N: Network>(
    alloc: Global,
    network: &mut N,
    service: &S,
    clients: &Clients<S, N>,
    limits: Limits,
    text: &mut Vec<u8>,
) -> Next
    ensures { HasAnswered limits.status result (S.status service.now
        (speakers_at (λ b. view_of S.who N.number b.value) clients.now.slots.items))
        (N.log network.old) (N.log network.new) }
{
    if !limits.status {
        return Next::Round;
    }
    match network.ask() {
        Question::Nothing => Next::Round,
        Question::Stop => Next::Stop,
        Question::Reload => Next::Reload,
        Question::Kick => Next::Kick,
        Question::Status => {
            make(alloc, service, clients, text);
            network.report(text.as_slice());
            Next::Round
        }
    }
}
