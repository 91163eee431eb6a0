//! Later rows of a table are put in force.
ghost use Rattle.std.specs.Prelude.{◌≡◌, ◌≤◌, ◌&&◌, ℕ, IfErr, IfNone, IfSome, IsFalse, IsTrue, OnOk, OnErr, length, nat_le};
ghost use Rattle.judy_tenants.specs.Changes.{HasChanged, HasReasonIn, StaysWithin};
ghost use Rattle.judy_tenants.specs.Stocks.{held_of, IsGranted, IsStocked};

use crate::accounts::{Account, account_of};
use crate::freeing::{free_gone, stays_at};
use crate::grants::words_for;
use crate::laws;
use crate::stock::Stock;
use judy_bytes::OrderHash;
use judy_model::Quota;
use judy_table::{Table, TenantId};
use std::alloc::Global;

/// Whether the account is within the quota.
fn is_within(account: Account, quota: Quota) -> bool
    ensures { result ≡ (nat_le account.entries quota.entries
        && nat_le account.pieces quota.pieces) }
{
    account.entries <= quota.entries && account.pieces <= quota.pieces
}

/// Whether the tenant of a place stays when later rows come in force, but holds more than its new
/// quota.
fn is_beyond(accounts: &[Account], table: &Table, later: &Table, place: usize) -> bool
    requires { length table.now ≤ length accounts.now }
    ensures beyond { IsTrue result → HasReasonIn table.now later.now accounts.now place }
    ensures within { IsFalse result → StaysWithin table.now later.now accounts.now place }
{
    if !stays_at(table, later, place) {
        return false;
    }
    let account = account_of(accounts, table.tenant(place));
    !is_within(account, later.quota(later.tenant(place)))
}

/// The first tenant that stays when later rows come in force, but holds more than its new quota.
fn first_beyond(accounts: &[Account], table: &Table, later: &Table) -> Option<TenantId>
    requires { length table.now ≤ length accounts.now }
    ensures some { IfSome result (HasReasonIn table.now later.now accounts.now) }
    ensures none { IfNone result
        ((t : ℕ) → StaysWithin table.now later.now accounts.now t) }
{
    for place in 0..later.len() {
        if is_beyond(accounts, table, later, place) {
            return Some(later.tenant(place));
        }
    }
    None
}

/// Puts later rows in force. The arrays of each tenant that does not stay are freed.
///
/// Err: the new quota of this tenant is less than what it holds. Nothing changed.
pub fn put_in_force<H: OrderHash>(
    alloc: Global,
    stock: &mut Stock,
    hash: H,
    table: &Table,
    later: &Table,
) -> Result<(), TenantId>
    requires stocked { IsStocked H.hashed table.now stock.old }
    requires granted { IsGranted table.now stock.old }
    ensures stocked { OnOk result (IsStocked H.hashed later.now stock.new) }
    ensures granted { OnOk result (IsGranted later.now stock.new) }
    ensures changed { OnOk result
        (HasChanged (held_of table.now stock.old) (held_of later.now stock.new)) }
    ensures same { OnErr result (stock.new ≡ stock.old) }
    ensures reason { IfErr result
        (HasReasonIn table.now later.now stock.old.accounts.items) }
{
    laws::kinds_are_lawful();
    later.rows_are_sound();
    if let Some(tenant) = first_beyond(&stock.accounts, table, later) {
        return Err(tenant);
    }
    free_gone(alloc, stock, hash, table, later);
    stock.granted = stock.granted.max(words_for(later));
    Ok(())
}
