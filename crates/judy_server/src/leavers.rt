//! Finds the tenants that leave with a new table.
ghost use Rattle.std.specs.Prelude.{◌≡◌, ◌≢◌, ◌++◌, ◌∷◌, ◌<◌, ◌+◌, ℕ, List, [], IfOk, None, Some, length, map, slice_get, take, true};
ghost use Rattle.judy_table.specs.declared.fault.TableFault.{TableFault};
ghost use Rattle.judy_many.specs.Changes.{AreLeavers};
ghost use Rattle.judy_server.specs.Reloads.{AreGathered, is_kept, lacking, leavers};

use crate::orders::read_order;
use arrayvec::ArrayVec;
use judy_journal::{add_gone, begin_gone};
use judy_model::{LINE_LIMIT, Name};
use judy_table::{Table, TableFault, TenantId};
use judy_tenants::{OrderHash, Service};
use std::alloc::{AllocError, Global};

/// Adds a name to those that leave. False if there is no room for it, or if it is no name.
fn add_leaver(first: &mut Option<Name>, name: &[u8], request: &mut ArrayVec<u8, LINE_LIMIT>) -> bool
    ensures { result ≡ true → (left : List (List ℕ)) → AreGathered left first.old request.old.items
        → AreGathered (left ++ name.now ∷ []) first.new request.new.items }
{
    if first.is_some() {
        return add_gone(request, name);
    }
    begin_gone(request);
    *first = Name::read(name);
    first.is_some()
}

/// Whether no tenant has this place, or the table has its name.
fn is_kept<H: OrderHash>(service: &Service<H>, table: &Table, tenant: TenantId) -> bool
    requires { tenant < length service.now.tenants }
    ensures { slice_get (map (is_kept table.now) service.now.tenants) tenant ≡ Some result }
{
    service.is_vacant(tenant) || table.find(service.name(tenant)).is_some()
}

/// Adds the tenant of a row to those that leave, if the table lacks it. False if there is no room for it.
fn add_row<H: OrderHash>(
    service: &Service<H>,
    table: &Table,
    row: usize,
    first: &mut Option<Name>,
    request: &mut ArrayVec<u8, LINE_LIMIT>,
) -> bool
    requires { row < length service.now.tenants }
    ensures { result ≡ true
        → AreGathered (lacking (take row service.now.tenants) table.now) first.old request.old.items
        → AreGathered (lacking (take (row + 1) service.now.tenants) table.now) first.new request.new.items }
{
    let tenant = service.tenant(row);
    if is_kept(service, table, tenant) {
        return true;
    }
    add_leaver(first, service.name(tenant), request)
}

/// Finds the tenants that a table lacks.
fn find_lacking<H: OrderHash>(
    service: &Service<H>,
    table: &Table,
    request: &mut ArrayVec<u8, LINE_LIMIT>,
) -> Result<Option<Name>, AllocError>
    ensures { IfOk result (λ first. AreLeavers (lacking service.now.tenants table.now) first request.new.items) }
{
    service.rows_are_sound();
    let mut first = None;
    for row in 0..service.tenants() {
        if !add_row(service, table, row, &mut first, request) {
            return Err(AllocError);
        }
    }
    // Law: a request has at most 4,096 bytes.
    let _len = request.len();
    Ok(first)
}

/// Nobody leaves with a text that is no table. Without memory for a table that is not known.
fn without_table(fault: TableFault) -> Result<Option<Name>, AllocError>
    ensures { IfOk result (λ first. (first ≡ None) × (fault ≢ TableFault.Memory)) }
{
    match fault {
        TableFault::Memory => Err(AllocError),
        _ => Ok(None),
    }
}

/// Finds the tenants that are gone once the table of a text is in force. Nobody leaves with an order, or with
/// a text that is no table.
///
/// Err: out of memory.
pub fn find_leavers<H: OrderHash>(
    alloc: Global,
    service: &Service<H>,
    text: &[u8],
    request: &mut ArrayVec<u8, LINE_LIMIT>,
) -> Result<Option<Name>, AllocError>
    ensures { IfOk result (λ first. AreLeavers (leavers service.now.tenants text.now) first request.new.items) }
{
    if read_order(text).is_some() {
        return Ok(None);
    }
    match Table::parse(alloc, text) {
        Ok(table) => find_lacking(service, &table, request),
        Err(fault) => without_table(fault),
    }
}
