//! What records tell, and what a replay of them gives.
ghost use Rattle.judy_journal.specs.Replays.{OthersKeepAll, RecordedCallsTellAll, RecordsTellAll, RecordsTellOneChange, ReplaysAreExact};

use judy_model::laws::{
    a_tenant_alone_has_memory, full_is_for_new_entries, looks_keep_all, queries_keep_all,
    unchanged_are_told,
};

/// Why a record was not played. No array changed.
#[derive(Clone, Copy, Debug, PartialEq, Eq)]
pub enum Unplayed {
    /// It is not a tenant's name, a space, and a line that asks for a call that changes arrays.
    Record,
    /// There is no tenant of this name, and 64 other such names were noted.
    Tenant,
    /// The call was refused: a new entry, or its pieces, would exceed the tenant's quota.
    Full,
    /// The call was refused: there is no memory for a new entry.
    Memory,
}

/// A call that is not recorded changes no array of any tenant: it cannot change arrays, was refused, or
/// its reply says that all was so before.
pub fn unrecorded_calls_keep_all()
    ensures { OthersKeepAll }
{
    full_is_for_new_entries();
    looks_keep_all();
    queries_keep_all();
    unchanged_are_told();
    a_tenant_alone_has_memory();
}

/// A tenant's arrays after a run are those that its recorded calls make of the arrays before it.
pub fn recorded_calls_tell_all()
    ensures { RecordedCallsTellAll }
{
    full_is_for_new_entries();
    looks_keep_all();
    queries_keep_all();
    unchanged_are_told();
    a_tenant_alone_has_memory();
}

/// If a tenant of one run and a tenant of another have equal arrays before and equal recorded calls,
/// they have equal arrays afterwards, whatever their quotas, rights and other calls are.
pub fn replays_are_exact()
    ensures { ReplaysAreExact }
{
    full_is_for_new_entries();
    looks_keep_all();
    queries_keep_all();
    unchanged_are_told();
    a_tenant_alone_has_memory();
}

/// A record tells exactly the name and the call that its text spells.
pub fn records_tell_one_change()
    ensures { RecordsTellOneChange }
{}

/// A tenant's arrays after a run are those that the records of its name make of the arrays before it.
pub fn records_tell_all()
    ensures { RecordsTellAll }
{
    full_is_for_new_entries();
    looks_keep_all();
    queries_keep_all();
    unchanged_are_told();
    a_tenant_alone_has_memory();
}
