//! Orders of the operator, which freeze or thaw a tenant.
ghost use Rattle.std.specs.Prelude.{◌≡◌, MatchBool, length, option_map};
ghost use Rattle.judy_table.specs.Freezes.{has_tenant_of, with_freeze};
ghost use Rattle.judy_tenants.specs.Held.{IsSoundService};
ghost use Rattle.judy_server.specs.Orders.{after, freeze_of, frozen_by, frozen_in, order_in};
ghost use Rattle.judy_server.specs.Reloads.{IsOrdered};
ghost use Rattle.judy_server.specs.Tally.{tallied};

use crate::reload::{forget, tell};
use crate::tally::{Tally, is_text};
use judy_table::read_digest;
use judy_tenants::{OrderHash, Service};

/// How many bytes a space and the digits of a digest are.
const LAST: usize = 65;

/// What is asked of a tenant: it is frozen, for the token of a digest, or it is thawed.
#[derive(Clone, Copy, Debug)]
pub struct Order<'a> {
    /// The tenant's name.
    name: &'a [u8],
    /// The digest of the one token that may still change it. None thaws it.
    frozen: Option<[u8; 32]>,
}

/// What follows these bytes in a text that begins with them.
fn after<'a>(text: &'a [u8], head: &'static [u8]) -> Option<&'a [u8]>
    ensures { option_map (λ s. s.now) result ≡ after head.now text.now }
{
    if text.len() < head.len() {
        return None;
    }
    let (first, rest) = text.split_at(head.len());
    if is_text(first, head) {
        return Some(rest);
    }
    None
}

/// The order of a name, and of the space and the digest that follow it.
fn frozen_by<'a>(name: &'a [u8], last: &[u8]) -> Option<Order<'a>>
    requires { length last.now ≡ LAST }
    ensures { option_map (λ o. freeze_of o.name.now o.frozen) result ≡ frozen_by name.now last.now }
{
    if last[0] != b' ' {
        return None;
    }
    let (_space, digits) = last.split_at(1);
    match read_digest(digits) {
        Some(digest) => Some(Order {
            name,
            frozen: Some(digest),
        }),
        None => None,
    }
}

/// The order of a name, a space and a digest.
fn frozen_in(rest: &[u8]) -> Option<Order<'_>>
    ensures { option_map (λ o. freeze_of o.name.now o.frozen) result ≡ frozen_in rest.now }
{
    if rest.len() < LAST {
        return None;
    }
    let (name, last) = rest.split_at(rest.len() - LAST);
    frozen_by(name, last)
}

/// The order that a text is, if it is one.
#[tactic(auto, unfolding(crate::specs::Orders::order_in))]
pub fn read_order(text: &[u8]) -> Option<Order<'_>>
    ensures { option_map (λ o. freeze_of o.name.now o.frozen) result ≡ order_in text.now }
{
    if let Some(name) = after(text, b"THAW ") {
        return Some(Order { name, frozen: None });
    }
    match after(text, b"FREEZE ") {
        Some(rest) => frozen_in(rest),
        None => None,
    }
}

/// Freezes or thaws a tenant. False if no tenant has the name.
fn mark<H: OrderHash>(service: &mut Service<H>, order: &Order<'_>) -> bool
    ensures known { result ≡ has_tenant_of order.now.name.now service.old.tenants }
    ensures frozen { service.new ≡ record service.old {
      tenants = with_freeze order.now.name.now order.now.frozen service.old.tenants;
    } }
    ensures sound { IsSoundService service.new }
{
    match &order.frozen {
        Some(digest) => service.freeze(order.name, digest),
        None => service.thaw(order.name),
    }
}

/// Carries out an order. False if no tenant has the name, and then nothing has changed. Tells what became
/// of the tenant.
pub fn carry_out<H: OrderHash>(
    service: &mut Service<H>,
    tally: &mut Tally,
    order: &Order<'_>,
    told: &mut Vec<u8>,
) -> bool
    ensures { MatchBool result
        (IsOrdered (tallied service.old tally.old) (freeze_of order.now.name.now order.now.frozen)
        (tallied service.new tally.new))
        (tallied service.new tally.new ≡ tallied service.old tally.old) }
{
    if !mark(service, order) {
        tell(told, b"TENANT");
        return false;
    }
    forget(&*service, tally);
    service.rows_are_sound();
    tell(told, order.name);
    let thawed = order.frozen.is_none();
    tell(told, if thawed { b" thawed" } else { b" frozen" });
    true
}
