//! How many clients of each tenant are heard in a round.
ghost use Rattle.std.specs.Prelude.{◌≡◌, ◌≢◌, ◌<◌, ◌≤◌, ◌+◌, ℕ, false, option_map, true};
ghost use Rattle.judy_many.specs.Lives.{view_of};
ghost use Rattle.judy_many.specs.Shares.{IsCounted, MayListen, count_in, group_of};

use crate::client::{Client, is_ready};
use crate::limits::GROUPS_LIMIT;
use crate::network::Network;
use crate::shows::Shows;
use std::marker::Model;

/// The group that a connection counts to: each tenant is one, and the connections on which nobody speaks are
/// another. Tenants after the first 64 would be one together.
fn group<S: Shows>(service: &S, speaker: Option<S::Speaker>) -> usize
    ensures group { result ≡ group_of (option_map S.who speaker) }
    ensures within { result < GROUPS_LIMIT }
{
    let Some(speaker) = speaker else {
        return 0;
    };
    let tenant = service.tenant(speaker);
    if tenant < GROUPS_LIMIT - 2 {
        return tenant + 1;
    }
    GROUPS_LIMIT - 1
}

/// How many clients of each group were heard in a round so far.
#[derive(Drop)]
pub struct Shares {
    counts: [u32; GROUPS_LIMIT],
}

impl Model for Shares {
    ghost use Rattle.std.specs.Prelude.{List, ℕ};

    ghost Value = { List ℕ };

    ghost view = { λ s. s.counts };
}

impl Shares {
    /// None was heard.
    pub fn new() -> Shares
        ensures none { (g : ℕ) → count_in result g ≡ 0 }
    {
        Shares {
            counts: [0; GROUPS_LIMIT],
        }
    }

    /// Counts a client of a group, if fewer than a share were heard. Returns whether it was counted.
    fn count(&mut self, group: usize, share: u32) -> bool
        requires within { group < GROUPS_LIMIT }
        ensures counts { result ≡ true → (count_in self.old group < share)
            × IsCounted group self.old self.new }
        ensures full { result ≡ false → share ≤ count_in self.old group }
        ensures same { result ≡ false → self.new ≡ self.old }
    {
        if self.counts[group] >= share {
            return false;
        }
        self.counts[group] += 1;
        true
    }
}

/// Whether a client is heard in this round: no line of it asked to quit, its answers are written, and fewer
/// clients of its tenant than a share were heard. Then it is counted. Where its tenant has had its share it is
/// passed over: more bytes of it may wait, and it keeps its place in the queue.
pub fn may_listen<S: Shows, N: Network>(
    service: &S,
    client: &mut Client<S::Speaker, N::Connection>,
    shares: &mut Shares,
    share: u32,
) -> bool
    ensures may { MayListen result share (view_of S.who N.number client.old)
        (view_of S.who N.number client.new) shares.old shares.new }
    ensures session { client.new.session ≡ client.old.session }
{
    client.passed = false;
    if !is_ready(&*client) {
        return false;
    }
    if shares.count(group(service, client.session.speaker), share) {
        return true;
    }
    client.input.expect_more();
    client.passed = true;
    false
}
