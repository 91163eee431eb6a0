//! The quotas of a service are taken away while records are played, and put in force again.
ghost use Rattle.std.specs.Prelude.{IfSome, OnOk};
ghost use Rattle.judy_server.specs.Limits.{IsLifted, IsLimited};
ghost use Rattle.judy_server.specs.Tally.{tallied};
ghost use Rattle.judy_server.specs.declared.tally.Tally.{Tally as TallyLem};

use crate::tally::Tally;
use judy_model::Name;
use judy_recovery::JournalFault;
use judy_table::{Table, TenantId};
use judy_tenants::{OrderHash, Service};
use std::alloc::Global;

/// The name of a tenant; none if the place has no tenant.
fn name_of<H: OrderHash>(service: &Service<H>, tenant: TenantId) -> Name {
    if service.has(tenant)
        && let Some(name) = Name::read(service.name(tenant))
    {
        return name;
    }
    Name::of(b"")
}

/// Takes the quotas away, and returns the table that has them. None if there is no memory for it.
pub fn lift<H: OrderHash>(alloc: Global, service: &mut Service<H>) -> Option<Table>
    ensures { IfSome result (λ table. (tally : TallyLem)
        → IsLifted (tallied service.old tally) table (tallied service.new tally)) }
{
    match service.lift_quotas(alloc) {
        Ok(table) => Some(table),
        Err(_) => None,
    }
}

/// Puts a table in force, and forgets what the quotas before it allowed.
///
/// Err: a record named a tenant that the table lacks, or a tenant holds more than its quota.
pub fn limit<H: OrderHash>(
    alloc: Global,
    service: &mut Service<H>,
    tally: &Tally,
    table: Table,
) -> Result<(), JournalFault>
    ensures { OnOk result
        (IsLimited (tallied service.old tally.now) table (tallied service.new tally.now)) }
{
    if let Some(name) = tally.absent.first() {
        return Err(JournalFault::Absent(name));
    }
    match service.change(alloc, table) {
        Ok(()) => {
            service.forget_grants();
            service.rows_are_sound();
            Ok(())
        }
        Err(tenant) => Err(JournalFault::Quota(name_of(&*service, tenant))),
    }
}
