//! Whose connections are open.
ghost use Rattle.std.specs.Prelude.{◌≡◌, count_by, map, option_map};
ghost use Rattle.judy_table.specs.Shown.{seen};
ghost use Rattle.judy_server.specs.Present.{is_nobody, speaks_for};
ghost use Rattle.judy_server.specs.Tally.{tenant_of};

use judy_table::{Speaker, TenantId};

/// The tenant of a speaker.
pub fn tenant_of(speaker: Option<Speaker>) -> Option<TenantId>
    ensures { result ≡ tenant_of (option_map seen speaker) }
{
    match speaker {
        Some(speaker) => Some(speaker.tenant),
        None => None,
    }
}

/// Whether a tenant is logged in.
fn speaks_for(speaker: Option<Speaker>, tenant: TenantId) -> bool
    ensures { result ≡ speaks_for tenant (option_map seen speaker) }
{
    match speaker {
        Some(speaker) => speaker.tenant.place() == tenant.place(),
        None => false,
    }
}

/// Whether nobody is logged in.
fn is_nobody(speaker: Option<Speaker>) -> bool
    ensures { result ≡ is_nobody (option_map seen speaker) }
{
    match speaker {
        Some(_) => false,
        None => true,
    }
}

/// On how many of these connections a tenant is logged in.
pub fn count_tenant(speakers: &[Option<Speaker>], tenant: TenantId) -> u64
    ensures { result ≡ count_by (speaks_for tenant) (map (option_map seen) speakers.now) }
{
    let mut count = 0u64;
    for at in 0..speakers.len() {
        if speaks_for(speakers[at], tenant) {
            count += 1;
        }
    }
    count
}

/// On how many of them nobody is.
pub fn count_nobody(speakers: &[Option<Speaker>]) -> u64
    ensures { result ≡ count_by is_nobody (map (option_map seen) speakers.now) }
{
    let mut count = 0u64;
    for at in 0..speakers.len() {
        if is_nobody(speakers[at]) {
            count += 1;
        }
    }
    count
}
