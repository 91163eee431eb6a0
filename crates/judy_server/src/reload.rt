//! Another table is put in force, or an order is carried out, and what is told of it.
ghost use Rattle.std.specs.Prelude.{◌≡◌, MatchBool};
ghost use Rattle.judy_server.specs.Reloads.{IsReload, IsSeated, forgotten, without_gone};
ghost use Rattle.judy_server.specs.Tally.{tallied};
ghost use Rattle.judy_server.specs.Told.{Tells, TellsAll, fault_parts, reason_parts, tenants_parts};
ghost use Rattle.judy_table.specs.Seats.{name_at};

use crate::orders::{carry_out, read_order};
use crate::tally::{Tally, clear_if};
use itoa::Buffer;
use judy_programs::fault_name;
use judy_table::{Blame, Table, TableFault, TenantId};
use judy_tenants::{OrderHash, Service};
use std::alloc::Global;

/// Appends bytes. Without memory for them nothing is told.
pub fn tell(told: &mut Vec<u8>, part: &[u8])
    ensures { Tells part.now told.old.items told.new.items }
{
    let _ = told.extend_from_slice(part);
}

/// Tells how many tenants a table has.
fn tell_tenants(told: &mut Vec<u8>, count: usize)
    ensures { TellsAll (tenants_parts count) told.old.items told.new.items }
{
    let mut buffer = Buffer::new();
    tell(told, buffer.format(count as u64).as_bytes());
    tell(told, if count == 1 { b" tenant" } else { b" tenants" });
}

/// Tells the fault of a table.
fn tell_fault(told: &mut Vec<u8>, fault: TableFault)
    ensures { TellsAll (fault_parts fault) told.old.items told.new.items }
{
    if matches!(fault, TableFault::Memory) {
        tell(told, b"out of memory");
    } else {
        tell(told, b"fault ");
        tell(told, fault_name(fault).as_bytes());
    }
}

/// Tells where the fault of a text is, and what is right.
fn tell_blame(alloc: Global, told: &mut Vec<u8>, text: &[u8], fault: TableFault) {
    let Some(blame) = Blame::find(alloc, text) else {
        return;
    };
    if blame.fault != fault {
        return;
    }
    if let Ok(line) = format!(in alloc; ": {blame}") {
        tell(told, line.as_bytes());
    }
}

/// The name of a tenant. Empty if there is none.
pub fn name_of<H: OrderHash>(service: &Service<H>, tenant: TenantId) -> &[u8]
    ensures { result.now ≡ name_at service.now.tenants tenant }
{
    if service.has(tenant) {
        service.name(tenant)
    } else {
        b""
    }
}

/// Tells that a table was not put in force, since this tenant holds more than its quota there.
fn tell_reason<H: OrderHash>(told: &mut Vec<u8>, service: &Service<H>, tenant: TenantId)
    ensures { TellsAll (reason_parts service.now.tenants tenant) told.old.items told.new.items }
{
    tell(told, b"the quota of ");
    tell(told, name_of(service, tenant));
    tell(told, b" is less than what it holds");
}

/// Forgets the counts of places that have no tenant.
fn forget_in<H: OrderHash>(service: &Service<H>, counts: &mut [u64])
    ensures { counts.new ≡ forgotten 0 service.now.tenants counts.old }
{
    for place in 0..service.tenants() {
        let tenant = service.tenant(place);
        clear_if(counts, tenant, service.is_vacant(tenant));
    }
}

/// Forgets what is counted of places that have no tenant.
pub fn forget<H: OrderHash>(service: &Service<H>, tally: &mut Tally)
    ensures { tally.new ≡ without_gone service.now.tenants tally.old }
{
    forget_in(service, &mut tally.refused);
    forget_in(service, &mut tally.spoken);
    forget_in(service, &mut tally.full);
}

/// Puts the table of a text in force. False if it is not, and then nothing has changed. Tells how many
/// tenants it has, or why it is not put in force.
fn change_table<H: OrderHash>(
    alloc: Global,
    service: &mut Service<H>,
    tally: &mut Tally,
    text: &[u8],
    told: &mut Vec<u8>,
) -> bool
    ensures { MatchBool result
        (IsSeated (tallied service.old tally.old) text.now (tallied service.new tally.new))
        (tallied service.new tally.new ≡ tallied service.old tally.old) }
{
    let table = match Table::parse(alloc, text) {
        Ok(table) => table,
        Err(fault) => {
            tell_fault(told, fault);
            tell_blame(alloc, told, text, fault);
            return false;
        }
    };
    let count = table.len();
    match service.change(alloc, table) {
        Ok(()) => {
            forget(&*service, tally);
            service.rows_are_sound();
            tell_tenants(told, count);
            true
        }
        Err(tenant) => {
            tell_reason(told, &*service, tenant);
            false
        }
    }
}

/// Puts the table of a text in force, or carries out the order that the text is. False if it does not,
/// and then nothing has changed. Tells what it did, or why it did nothing.
pub fn change<H: OrderHash>(
    alloc: Global,
    service: &mut Service<H>,
    tally: &mut Tally,
    text: &[u8],
    told: &mut Vec<u8>,
) -> bool
    ensures { MatchBool result
        (IsReload (tallied service.old tally.old) text.now (tallied service.new tally.new))
        (tallied service.new tally.new ≡ tallied service.old tally.old) }
{
    match read_order(text) {
        Some(order) => carry_out(service, tally, &order, told),
        None => change_table(alloc, service, tally, text, told),
    }
}
