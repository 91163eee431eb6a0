//! One call of one tenant.
ghost use Rattle.std.specs.Prelude.{◌≡◌, ◌<◌, IsTrue, length};
ghost use Rattle.judy_model.specs.Service.{IsServed};
ghost use Rattle.judy_model.specs.Solo.{is_memory};
ghost use Rattle.judy_kinds.specs.Calls.{has_string};
ghost use Rattle.judy_table.specs.Shown.{seen};
ghost use Rattle.judy_tenants.specs.Held.{states_of, quotas_of, HasCause, Keeps};
ghost use Rattle.judy_tenants.specs.Stocks.{held_of, IsGranted, IsStocked};

use crate::accounts::{account_of, settle};
use crate::laws;
use crate::stock::{Stock, exchange, is_full};
use crate::whole::overlook;
use judy_bytes::OrderHash;
use judy_directory::Spot;
use judy_kinds::array_of;
use judy_model::{Call, Reply, ReplyRoom};
use judy_table::{Speaker, Table};
use std::alloc::Global;

/// Answers a call. Refusals come in this order: the right, the quota, memory.
pub fn serve<'a, H: OrderHash>(
    alloc: Global,
    stock: &mut Stock,
    hash: H,
    table: &Table,
    speaker: Speaker,
    call: &Call<'_>,
    found: &'a mut ReplyRoom,
) -> Reply<'a>
    requires stocked { IsStocked H.hashed table.now stock.old }
    requires granted { IsGranted table.now stock.old }
    requires known { speaker.tenant < length table.now }
    requires string { IsTrue (has_string call.now) }
    ensures stocked { IsStocked H.hashed table.now stock.new }
    ensures granted { IsGranted table.now stock.new }
    ensures served { IsServed (quotas_of table.now) (states_of (held_of table.now stock.old))
        (record { speaker = seen speaker; call = call.now }) result
        (states_of (held_of table.now stock.new)) }
    ensures cause { HasCause (record { speaker = seen speaker; call = call.now })
        (held_of table.now stock.old) result (held_of table.now stock.new) }
    ensures keeps { Keeps (record { speaker = seen speaker; call = call.now })
        (held_of table.now stock.old) result (held_of table.now stock.new) }
{
    laws::kinds_are_lawful();
    laws::calls_add_one();
    judy_kinds::laws::insertions_alone_ask();
    judy_kinds::laws::places_are_small();
    judy_arena::laws::sizes_add_up_over_the_numbers();
    judy_model::laws::a_tenant_alone_has_memory();
    judy_model::laws::full_is_for_new_entries();
    judy_model::laws::looks_keep_all();
    stock.arena.the_region_is_bounded();
    if call.is_read_only(speaker.right) {
        return speaker.right.refusal();
    }
    let tenant = speaker.tenant;
    let account = account_of(&stock.accounts, tenant);
    let quota = table.quota(tenant);
    let Some((kind, name)) = array_of(call) else {
        return overlook(
            stock,
            hash,
            tenant,
            account,
            quota,
            call,
            &mut found.listing,
        );
    };
    let spot = Spot::new(tenant.place(), kind, name.copied());
    if is_full(stock, hash, account, quota, &spot, call) {
        return Reply::Full;
    }
    let Ok(answered) = exchange(alloc, stock, hash, &spot, call, found) else {
        return Reply::Memory;
    };
    settle(&mut stock.accounts, tenant, answered.before, answered.after);
    answered.reply
}
