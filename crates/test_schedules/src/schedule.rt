//! One schedule: it is drawn, played by the real loop over the real service, and looked at.
use crate::draw::Draw;
use crate::machine::{Machine, SEGMENT_LIMIT};
use crate::peer::{Parting, Peer, Place, Wrong};
use crate::plan::{draw_chances, draw_limits, draw_peers};
use crate::tenants::{PEERS_LIMIT, write_table};
use judy_journal::{SUM_LEN, Writer};
use judy_many::{Ending, Limits, serve_many};
use judy_programs::Opens;
use judy_server::Server;
use judy_tenants::Sha256Hash;
use std::alloc::{AllocError, Global};

/// A fault that a schedule found, with the number of the client.
#[derive(Clone, Copy)]
pub enum Finding {
    /// An answer is not the model's.
    Answer(usize),
    /// A connection was closed for no reason.
    Close(usize),
    /// A client had no turn between two waits.
    Skipped(usize),
    /// The server sleeps, or has ended, and a client has this number of answers, of this number of lines.
    Missing(usize, usize, usize),
    /// The server sleeps, or has ended, and a client waits to be accepted.
    Waiting(usize),
    /// The server sleeps, or has ended, and a client that has ended was not closed.
    Open(usize),
    /// The server ended in a way that nothing led to.
    Ended(Ending),
    /// Bytes were written after the journal had failed.
    Bold,
    /// The schedule has no end.
    Endless,
}

/// What is wrong with a client that was accepted, when the server sleeps or has ended.
fn look_at(at: usize, peer: &Peer) -> Option<Finding> {
    let open = peer.place != Place::Closed;
    if open && (peer.left || peer.gone) {
        return Some(Finding::Open(at));
    }
    if peer.left || peer.gone {
        return None;
    }
    let answers = peer.answers();
    if peer.written != answers.bytes.len() {
        let has = answers.lines_in(0, peer.written);
        return Some(Finding::Missing(at, has, answers.ends.len()));
    }
    let parts = peer.habits.parting == Parting::Quits || peer.habits.parting == Parting::Ends;
    if open && parts {
        return Some(Finding::Open(at));
    }
    None
}

/// The first client that waits to be accepted, when the server sleeps or has ended.
fn look_outside(peers: &[Peer]) -> Option<Finding> {
    for (at, peer) in peers.iter().enumerate() {
        if peer.place == Place::Waiting {
            return Some(Finding::Waiting(at));
        }
    }
    None
}

/// What is wrong with the first client with whom something is, when the server sleeps or has ended.
fn look_at_all(peers: &[Peer]) -> Option<Finding> {
    for (at, peer) in peers.iter().enumerate() {
        if peer.place != Place::Waiting
            && let Some(found) = look_at(at, peer)
        {
            return Some(found);
        }
    }
    look_outside(peers)
}

/// What was wrong with the first client with whom something was, whatever the end.
fn look_back(peers: &[Peer]) -> Option<Finding> {
    for (at, peer) in peers.iter().enumerate() {
        match peer.wrong {
            Some(Wrong::Answer) => return Some(Finding::Answer(at)),
            Some(Wrong::Close) => return Some(Finding::Close(at)),
            Some(Wrong::Skipped) => return Some(Finding::Skipped(at)),
            None => {}
        }
    }
    None
}

/// What a schedule found, by the end of the server.
fn judge(machine: &Machine, ending: Ending) -> Option<Finding> {
    if let Some(found) = look_back(machine.peers.as_slice()) {
        return Some(found);
    }
    if machine.endless {
        return Some(Finding::Endless);
    }
    if machine.bold {
        return Some(Finding::Bold);
    }
    let led = match ending {
        Ending::Done => true,
        Ending::Socket => machine.asleep,
        Ending::Stopped => machine.stopped,
        Ending::Journal => machine.failed,
        Ending::Memory => false,
    };
    if !led {
        return Some(Finding::Ended(ending));
    }
    match ending {
        Ending::Done | Ending::Socket => look_at_all(machine.peers.as_slice()),
        Ending::Stopped | Ending::Journal | Ending::Memory => None,
    }
}

/// The writer of a journal, if there is one. Its segment is full sooner or later.
fn draw_writer(
    alloc: Global,
    draw: &mut Draw,
    limits: Limits,
) -> Result<Option<Box<Writer>>, AllocError> {
    if limits.journal.is_none() {
        return Ok(None);
    }
    let left = draw.one_of(&[100, 20_000, 1_000_000]);
    let size = SEGMENT_LIMIT.saturating_sub(left as u64);
    Ok(Some(Box::new(alloc, Writer::new(1, &[b'0'; SUM_LEN], size))?))
}

/// Plays the schedule of a seed. Returns the fault that it found, if any.
pub fn play(alloc: Global, seed: u64) -> Result<Option<Finding>, AllocError> {
    let mut draw = Draw::new(seed);
    let peers = draw_peers(alloc, &mut draw)?;
    let crowd = draw.happens(1, 4);
    let limits = draw_limits(&mut draw, peers.len(), crowd);
    let writer = draw_writer(alloc, &mut draw, limits)?;
    let chances = draw_chances(&mut draw, crowd);
    let mut table = Vec::new(alloc);
    write_table(&mut table, &[true; PEERS_LIMIT])?;
    let Ok(mut service) = Server::<Sha256Hash>::open(alloc, b"secret", table.as_slice()) else {
        return Ok(Some(Finding::Ended(Ending::Memory)));
    };
    let mut machine = Machine::new(peers, chances, draw);
    machine.even = limits.share as usize >= PEERS_LIMIT;
    let ending = serve_many(alloc, &mut machine, &mut service, limits, writer);
    Ok(judge(&machine, ending))
}
