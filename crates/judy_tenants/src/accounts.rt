//! The numbers of entries and pieces of each tenant.
ghost use Rattle.std.specs.Prelude.{◌≡◌, ◌≢◌, ◌+◌, ◌<◌, ◌≤◌, ◌^◌, ℕ, ◌&&◌, IfOk, length, nat_le, nat_lt};
ghost use Rattle.judy_tenants.specs.Accounts.{entries_at, account_pieces};

use judy_directory::Place;
use judy_model::Quota;
use judy_table::TenantId;
use std::alloc::{AllocError, Global};

/// How many rows a table has at most.
pub const ROWS: usize = 128;

/// One tenant's numbers of entries and pieces.
#[derive(Clone, Copy)]
pub struct Account {
    pub entries: u64,
    pub pieces: u64,
}

/// Accounts for as many tenants as a table has at most, all of them 0.
pub fn no_accounts(alloc: Global) -> Result<Vec<Account>, AllocError>
    ensures many { IfOk result (λ accounts. length accounts.items ≡ ROWS) }
    ensures entries { IfOk result (λ accounts. (t : ℕ) → entries_at accounts.items t ≡ 0) }
    ensures pieces { IfOk result (λ accounts. (t : ℕ) → account_pieces accounts.items t ≡ 0) }
{
    let nothing = Account {
        entries: 0,
        pieces: 0,
    };
    vec![in alloc; nothing; ROWS]
}

/// The account of a tenant of the table.
pub fn account_of(accounts: &[Account], tenant: TenantId) -> Account
    requires { tenant < length accounts.now }
    ensures entries { result.entries ≡ entries_at accounts.now tenant }
    ensures pieces { result.pieces ≡ account_pieces accounts.now tenant }
{
    accounts[tenant.place() as usize]
}

/// Whether the quota has room for one more entry of this many pieces. No account exceeds its quota.
pub fn has_room(account: Account, quota: Quota, pieces: u64) -> bool
    requires { account.pieces ≤ quota.pieces }
    ensures { result ≡ (nat_lt account.entries quota.entries
        && nat_le (account.pieces + pieces) quota.pieces) }
{
    account.entries < quota.entries && pieces <= quota.pieces - account.pieces
}

/// Replaces an array's old counts by its new ones in the tenant's account.
pub fn settle(accounts: &mut [Account], tenant: TenantId, before: Place, after: Place)
    requires known { tenant < length accounts.old }
    requires entries { before.entries ≤ entries_at accounts.old tenant }
    requires pieces { before.pieces ≤ account_pieces accounts.old tenant }
    requires few_entries { entries_at accounts.old tenant + after.entries
        < before.entries + 2 ^ 64 }
    requires few_pieces { account_pieces accounts.old tenant + after.pieces
        < before.pieces + 2 ^ 64 }
    ensures many { length accounts.new ≡ length accounts.old }
    ensures entries { entries_at accounts.new tenant + before.entries
        ≡ entries_at accounts.old tenant + after.entries }
    ensures pieces { account_pieces accounts.new tenant + before.pieces
        ≡ account_pieces accounts.old tenant + after.pieces }
    ensures other_entries { (t : ℕ) → t ≢ tenant
        → entries_at accounts.new t ≡ entries_at accounts.old t }
    ensures other_pieces { (t : ℕ) → t ≢ tenant
        → account_pieces accounts.new t ≡ account_pieces accounts.old t }
{
    let place = tenant.place() as usize;
    let Account { entries, pieces } = accounts[place];
    accounts[place] = Account {
        entries: entries - before.entries + after.entries,
        pieces: pieces - before.pieces + after.pieces,
    };
}
