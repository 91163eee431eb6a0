//! Schedules that are drawn: the clients with their lines and habits, and what else happens.
use crate::draw::Draw;
use crate::lines::{Kind, Talk, size_of};
use crate::machine::Chances;
use crate::peer::{Habits, Parting, Peer};
use crate::tenants::PEERS_LIMIT;
use judy_many::{Limits, Sync};
use std::alloc::{AllocError, Global};

/// About how many bytes the answers of a client have at most. A turn answers 12,288 bytes and a line.
const SIZES: [usize; 4] = [14_000, 30_000, 60_000, 60_000];

/// What most lines of a client are. Those with long answers are drawn most, since a few of them are more
/// than one turn can answer.
fn draw_kind(draw: &mut Draw) -> Kind {
    match draw.below(16) {
        0 => Kind::Empty,
        1 => Kind::Used,
        2 => Kind::Add,
        3 => Kind::Last,
        4 | 5 => Kind::Store,
        6 => Kind::Test,
        _ => Kind::Find,
    }
}

/// How many lines a client sends of a kind.
fn draw_count(draw: &mut Draw, kind: Kind, blocks: usize) -> usize {
    let most = draw
        .one_of(&SIZES)
        .checked_div(size_of(kind, blocks))
        .unwrap_or(1);
    let least = draw.one_of(&[0, most / 2, most / 2]);
    least.saturating_add(draw.below(most / 2))
}

/// How a client ends.
fn draw_parting(draw: &mut Draw) -> Parting {
    match draw.below(4) {
        0 => Parting::Stays,
        1 => Parting::Quits,
        2 => Parting::Ends,
        _ => Parting::Leaves,
    }
}

/// After how many bytes a client leaves in any case. Most do not.
fn draw_end(draw: &mut Draw, size: usize) -> usize {
    if draw.happens(1, 8) {
        return draw.below(size);
    }
    usize::MAX
}

/// The most bytes at once. It is never so low that a schedule takes long.
fn draw_piece(draw: &mut Draw, size: usize) -> usize {
    let piece = draw.one_of(&[1, 30, 500, 5000, 100_000]);
    piece.max(size / 64)
}

/// What a client does, by its number of lines and the numbers of bytes that it sends and reads.
fn draw_habits(draw: &mut Draw, lines: usize, sends: usize, reads: usize) -> Habits {
    let share = draw.one_of(&[1, 1, 2, 2, 3, 4, 8]);
    Habits {
        window: (lines / share.max(1)).saturating_add(2),
        piece: draw_piece(draw, sends),
        sip: draw_piece(draw, reads),
        lazy: draw.one_of(&[0, 0, 0, 0, 8, 16]),
        parting: Parting::Stays,
        leaves_at: draw_end(draw, sends.saturating_add(reads).saturating_mul(2)),
        inbox: draw.one_of(&[100, 4_000, 200_000]).max(sends / 64),
        outbox: draw.one_of(&[100, 3_000, 13_000, 200_000]).max(reads / 64),
    }
}

/// A client of this tenant.
fn draw_peer(alloc: Global, draw: &mut Draw, tenant: usize) -> Result<Peer, AllocError> {
    let blocks = draw.one_of(&[1, 6, 12, 31, 31, 31]);
    let kind = draw_kind(draw);
    let parting = draw_parting(draw);
    let mut talk = Talk::new(alloc, tenant, blocks)?;
    talk.add(Kind::Great, 0)?;
    talk.add(Kind::Store, 7)?;
    let count = draw_count(draw, kind, blocks);
    talk.add_some(draw, kind, count)?;
    if parting == Parting::Quits {
        talk.add(Kind::Quit, 0)?;
    }
    let (sends, reads) = (talk.lines.bytes.len(), talk.answers.bytes.len());
    let habits = draw_habits(draw, count, sends, reads);
    Ok(Peer::new(talk, Habits { parting, ..habits }))
}

/// The clients of a schedule.
pub fn draw_peers(alloc: Global, draw: &mut Draw) -> Result<Vec<Peer>, AllocError> {
    let count = draw.one_of(&[1, 2, 2, 3, 4, PEERS_LIMIT]);
    let mut peers = Vec::new(alloc);
    for tenant in 0..count {
        peers.push(draw_peer(alloc, draw, tenant)?)?;
    }
    Ok(peers)
}

/// When the journal is synced, if there is one.
fn draw_sync(draw: &mut Draw) -> Option<Sync> {
    match draw.below(8) {
        0 => Some(Sync::Round),
        1 => Some(Sync::Never),
        2 => Some(Sync::Seconds(1)),
        _ => None,
    }
}

/// A limit of time that never passes, or none. With one the loop asks for the time.
fn draw_time(draw: &mut Draw) -> Option<u32> {
    if draw.happens(1, 8) {
        return Some(1_000_000_000);
    }
    None
}

/// The limits of a server to which this number of clients comes. In a crowd there is one place, for which
/// the others wait. Each client has a tenant of its own, so that one connection a tenant is enough. With a share of
/// one, those on which nobody is logged in have their turns one after another.
pub fn draw_limits(draw: &mut Draw, peers: usize, crowd: bool) -> Limits {
    let places = draw.one_of(&[1, 2, 3, PEERS_LIMIT, PEERS_LIMIT, PEERS_LIMIT]);
    let places = if crowd { 1 } else { places };
    let ends = draw.happens(1, 2);
    Limits {
        clients: places.min(PEERS_LIMIT) as u32,
        tenant_clients: if ends { Some(1) } else { None },
        share: draw.one_of(&[1, PEERS_LIMIT, PEERS_LIMIT]).min(PEERS_LIMIT) as u32,
        connections: if ends {
            peers.min(PEERS_LIMIT) as u64
        } else {
            u64::MAX
        },
        login: None,
        idle: draw_time(draw),
        turn: draw_time(draw),
        status: crowd || draw.happens(1, 2),
        journal: if crowd { None } else { draw_sync(draw) },
    }
}

/// What else happens. In a crowd the table is often read again, so that tenants go.
pub fn draw_chances(draw: &mut Draw, crowd: bool) -> Chances {
    let reloads = draw.one_of(&[0, 10, 100, 300]);
    let absences = draw.one_of(&[0, 1, 4]);
    let fails = draw.happens(1, 8);
    Chances {
        acts: draw.one_of(&[0, 2, 8, 16, 16]),
        burst: draw.one_of(&[2, 4, 20]),
        interrupts: draw.one_of(&[0, 0, 0, 50]),
        later: draw.one_of(&[0, 0, 0, 4]),
        statuses: draw.one_of(&[0, 0, 0, 20]),
        reloads: if crowd { 300 } else { reloads },
        stops: draw.one_of(&[0, 0, 0, 5]),
        absences: if crowd { 4 } else { absences },
        fails_at: if fails { draw.below(40) } else { usize::MAX },
    }
}
