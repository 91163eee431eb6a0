//! The places of tenants after another table is read.
ghost use Rattle.std.specs.Prelude.{◌≡◌, ◌≤◌, [], ◌∷◌, ◌++◌, List, drop, length, slice_get};
ghost use Rattle.judy_table.specs.declared.tenant.Tenant.{Tenant as TheTenant};
ghost use Rattle.judy_table.specs.Freezes.{has_tenant_of, with_freeze};
ghost use Rattle.judy_table.specs.Seats.{has_name, row_of, is_fresh, fresh_in, placed, seated};
ghost use Rattle.judy_table.specs.Unlimited.{unlimited};

use crate::table::{ROWS_LIMIT, Room};
use crate::tenant::Tenant;

/// Whether some row has this name.
fn has_name(rows: &[Tenant], name: &[u8]) -> bool
    ensures { result ≡ has_name name.now rows.now }
{
    rows.iter().any(|t| t.name.as_bytes() == name)
}

/// The first row of this name, or a vacant one.
fn row_of(rows: &[Tenant], name: &[u8]) -> Tenant
    ensures { result ≡ row_of name.now rows.now }
{
    for row in rows {
        if row.name.as_bytes() == name {
            return row.copied();
        }
    }
    Tenant::vacant()
}

/// Whether there is a tenant whose name no row has.
fn is_fresh(rows: &[Tenant], tenant: &Tenant) -> bool
    ensures { result ≡ is_fresh rows.now tenant.now }
{
    !tenant.is_vacant() && !has_name(rows, tenant.name.as_bytes())
}

/// The next tenant of a table, from a place on, whose name no row has. The place moves behind it.
fn next_fresh(rows: &[Tenant], table: &[Tenant], next: &mut usize) -> Option<Tenant>
    ensures first { result ≡ slice_get (fresh_in rows.now (drop next.old table.now)) 0 }
    ensures rest { fresh_in rows.now (drop next.new table.now)
        ≡ drop 1 (fresh_in rows.now (drop next.old table.now)) }
{
    for place in *next..table.len() {
        if is_fresh(rows, &table[place]) {
            *next = place + 1;
            return Some(table[place].copied());
        }
    }
    *next = table.len();
    None
}

/// The row after the table is read, at the place of this one. A tenant that stays is frozen as before.
/// A place that was vacant has the next fresh tenant of the table.
fn seat_at(row: &Tenant, rows: &[Tenant], table: &[Tenant], next: &mut usize) -> Tenant
    ensures { (others : List TheTenant)
        → placed table.now (row.now ∷ others) (fresh_in rows.now (drop next.old table.now))
        ≡ result ∷ placed table.now others (fresh_in rows.now (drop next.new table.now)) }
{
    if !row.is_vacant() {
        return row_of(table, row.name.as_bytes()).keeping(row.frozen);
    }
    next_fresh(rows, table, next).unwrap_or(Tenant::vacant())
}

/// Makes these the rows after the table is read, at the places that there were before. Returns the place in
/// the table from which on its fresh tenants still have no row.
fn seat_rows(room: &mut Room, rows: &[Tenant], table: &[Tenant]) -> usize
    requires { length (seated rows.now table.now) ≤ ROWS_LIMIT }
    ensures { seated rows.now table.now ≡ room.new.items ++ fresh_in rows.now (drop result table.now) }
{
    room.clear();
    let mut next = 0;
    for row in rows {
        room.push(seat_at(row, rows, table, &mut next));
    }
    next
}

/// Appends the rows of the fresh tenants of a table, from a place on.
fn add_fresh(room: &mut Room, rows: &[Tenant], table: &[Tenant], next: usize)
    requires { length (room.old.items ++ fresh_in rows.now (drop next table.now)) ≤ ROWS_LIMIT }
    ensures { room.new.items ≡ room.old.items ++ fresh_in rows.now (drop next table.now) }
{
    for place in next..table.len() {
        if is_fresh(rows, &table[place]) {
            room.push(table[place].copied());
        }
    }
}

/// Makes these the rows after the table is read, whatever they were before.
pub fn seat(room: &mut Room, rows: &[Tenant], table: &[Tenant])
    requires { length (seated rows.now table.now) ≤ ROWS_LIMIT }
    ensures { room.new.items ≡ seated rows.now table.now }
{
    let next = seat_rows(room, rows, table);
    add_fresh(room, rows, table, next);
}

/// Fills empty room with the rows of the same tenants, each with the greatest quota.
pub fn unlimited(room: &mut Room, rows: &[Tenant])
    requires empty { room.old.items ≡ [] }
    requires fits { length rows.now ≤ ROWS_LIMIT }
    ensures { room.new.items ≡ unlimited rows.now }
{
    for row in rows {
        room.push(row.unlimited());
    }
}

/// Gives the tenant of this name this freeze, or none. False if no row has the tenant, and then nothing
/// has changed.
pub fn freeze(rows: &mut [Tenant], name: &[u8], frozen: Option<[u8; 32]>) -> bool
    ensures known { result ≡ has_tenant_of name.now rows.old }
    ensures rows { rows.new ≡ with_freeze name.now frozen rows.old }
{
    let mut known = false;
    for row in rows.iter_mut() {
        let here = row.freeze(name, frozen);
        known = known || here;
    }
    known
}
