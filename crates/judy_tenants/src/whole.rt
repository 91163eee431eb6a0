//! Calls of a tenant that name no array, or two.
ghost use Rattle.std.specs.Prelude.{◌≡◌, IsFalse};
ghost use Rattle.judy_directory.specs.Kinds.{spot_of};
ghost use Rattle.judy_directory.specs.Places.{at};
ghost use Rattle.judy_kinds.specs.Calls.{is_of_array};
ghost use Rattle.judy_model.specs.declared.commands.Kind.TheVariants as kind;
ghost use Rattle.judy_model.specs.Intersections.{intersect, intersection_reply};
ghost use Rattle.judy_model.specs.Tenant.{allowed_step, pieces, used};
ghost use Rattle.judy_tenants.specs.States.{IsHeld, state_in};
ghost use Rattle.judy_words.specs.OneArrays.{one_in};

use crate::accounts::Account;
use crate::arrays::names;
use crate::laws;
use crate::stock::{Stock, stands_at};
use judy_bytes::OrderHash;
use judy_directory::Spot;
use judy_kinds::intersection;
use judy_model::{Call, Kind, Listing, Name, Quota, Reply};
use judy_refs::Ref;
use judy_table::TenantId;

/// The reference of a tenant's set of this name.
fn set_of(stock: &Stock, tenant: TenantId, name: &Name) -> Ref
    ensures { result ≡ (at stock.now.directory.0 (spot_of tenant kind.One name.now)).root }
{
    let spot = Spot::new(tenant.place(), Kind::One, name.copied());
    stands_at(&stock.directory, &spot).root
}

/// The reply to a call that names no array, or two. It changes nothing.
pub fn overlook<'a, H: OrderHash>(
    stock: &Stock,
    hash: H,
    tenant: TenantId,
    account: Account,
    quota: Quota,
    call: &Call<'_>,
    listing: &'a mut Listing,
) -> Reply<'a>
    requires held { IsHeld H.hashed stock.now.arena.blocks stock.now.directory.0 }
    requires none { IsFalse (is_of_array call.now) }
    requires entries { account.entries
        ≡ used (state_in stock.now.arena.blocks stock.now.directory.0 tenant) }
    requires pieces { account.pieces
        ≡ pieces (state_in stock.now.arena.blocks stock.now.directory.0 tenant) }
    ensures { allowed_step quota (state_in stock.now.arena.blocks stock.now.directory.0 tenant) call.now
        ≡ (result, state_in stock.now.arena.blocks stock.now.directory.0 tenant) }
{
    laws::kinds_are_lawful();
    match call {
        Call::Intersect(name, other, x, most) => {
            let (set, other) = (set_of(stock, tenant, name), set_of(stock, tenant, other));
            intersection(&stock.arena, set, other, *x, *most, listing)
        }
        Call::Names(from, most) => names(stock, hash, tenant, from, *most, listing),
        _ => Reply::Used(account.entries, quota.entries, account.pieces, quota.pieces),
    }
}
