//! Laws of the definitions. The functions are empty: each contract is the law.
ghost use Rattle.judy_model.specs.Gaps.{GapsAreFound, GapsHaveOneAnswer};
ghost use Rattle.judy_model.specs.Intersections.{IntersectionsAreExact};
ghost use Rattle.judy_model.specs.Service.{IdleTenantsRest, ServingGoesOn, ServingIsDetermined, ServingIsStepwise};
ghost use Rattle.judy_model.specs.Solo.{MemoryIsForNew, SoloGoesOn, SoloIsDetermined, SoloIsStepwise, StepHasMemory};
ghost use Rattle.judy_model.specs.Tenant.{AloneGoesOn};
ghost use Rattle.judy_model.specs.Unchanged.{UnchangedAreTold};
ghost use Rattle.judy_model.specs.Walks.{ByteWalksAreWhole, WalksAreTakes};
ghost use Rattle.judy_model.specs.WellFormed.{AnswersKeepAll, ArraysAreListed, CallsKeepOthers, FullIsForNew, LooksKeepAll, QueriesKeepAll, StepKeepsForm, StepKeepsQuota};
ghost use Rattle.judy_model.specs.Reading.{CallsAreOfTheirCommand, SpellsAtMostOne};

/// If two services agree on a tenant's quota, arrays, calls and refusals for memory, they answer it
/// equally.
pub fn tenants_are_answered_equally()
    ensures { SoloIsDetermined }
{}

/// A line spells at most one request.
pub fn lines_have_one_reading()
    ensures { SpellsAtMostOne }
{}

/// A call that a command makes is of that command.
pub fn calls_are_of_their_command()
    ensures { CallsAreOfTheirCommand }
{}

/// The nearest absent words at, above and below a word are found, if there are any.
pub fn gaps_are_found()
    ensures { GapsAreFound }
{}

/// Each search for an absent word has exactly one answer.
pub fn gaps_have_one_answer()
    ensures { GapsHaveOneAnswer }
{}

/// A walk is the first n entries that its search looks among, in the search's direction.
pub fn walks_are_takes()
    ensures { WalksAreTakes }
{}

/// Walks over a JudyHS are in the order of the keys' words, then of the keys. They go over all of its entries, each
/// once.
pub fn byte_walks_are_whole()
    ensures { ByteWalksAreWhole }
{}

/// A list of arrays has the next of them in the order of kinds, then of names: all that have entries, each once,
/// and no others.
pub fn arrays_are_listed()
    ensures { ArraysAreListed }
{}

/// The indexes of an intersection are all that both sets have below the word where the next call goes on, or all
/// that they have, if there is no such word; and calls come to an end.
pub fn intersections_are_exact()
    ensures { IntersectionsAreExact }
{}

/// A call keeps well-formed arrays well-formed: names and keys are sorted, no array is empty, and
/// each entry is one of its kind.
pub fn calls_keep_arrays_in_form()
    ensures { StepKeepsForm }
{}

/// A call adds an entry and its pieces only if it asks for a new entry and the quota has room. So a
/// well-formed tenant never exceeds its quota.
pub fn calls_keep_the_quota()
    ensures { StepKeepsQuota }
{}

/// The reply is `FULL` exactly if the call asks for a new entry without room. Well-formed arrays
/// are then unchanged.
pub fn full_is_for_new_entries()
    ensures { FullIsForNew }
{}

/// Answering a ++ b is answering a, then b from the resulting state.
pub fn calls_go_on()
    ensures { AloneGoesOn }
{}

/// A run of a tenant among others can be stated as a whole or call by call. The two statements are
/// equivalent.
pub fn runs_are_stepwise()
    ensures { SoloIsStepwise }
{}

/// Two consecutive runs of a tenant are one run, and a run can be cut anywhere.
pub fn runs_go_on()
    ensures { SoloGoesOn }
{}

/// A tenant alone never gets `ERR MEMORY`.
pub fn a_tenant_alone_has_memory()
    ensures { StepHasMemory }
{}

/// `ERR MEMORY` answers only a call that asks for a new entry within the quota of entries and
/// pieces. Nothing changes then.
pub fn memory_is_for_new_entries()
    ensures { MemoryIsForNew }
{}

/// The reply is `ERR READONLY` exactly if the call may change arrays and the right is the read-only
/// one, and `ERR FROZEN` exactly if it may and the right is that of a frozen tenant. Under these two
/// rights, every call leaves well-formed arrays unchanged.
pub fn looks_keep_all()
    ensures { LooksKeepAll }
{}

/// A call that cannot change arrays leaves well-formed arrays unchanged.
pub fn queries_keep_all()
    ensures { QueriesKeepAll }
{}

/// A reply that says that the call changed nothing is right: well-formed arrays are as they were.
pub fn unchanged_are_told()
    ensures { UnchangedAreTold }
{}

/// A call leaves arrays of other names and other kinds unchanged.
pub fn calls_keep_other_arrays()
    ensures { CallsKeepOthers }
{}

/// An answer to a tenant among others, refused or not, keeps well-formed arrays well-formed and
/// within the quota. It leaves all arrays unchanged except the one that the call names.
pub fn answers_keep_all()
    ensures { AnswersKeepAll }
{}

/// One call is a run of the service: the tenant of the call is answered, and no other tenant's
/// arrays change.
pub fn one_call_is_a_run()
    ensures { ServingIsStepwise }
{}

/// Two consecutive runs of a service are one run, and a run can be cut anywhere.
pub fn served_runs_go_on()
    ensures { ServingGoesOn }
{}

/// A tenant of one service and a tenant of another are answered equally if their quotas, arrays,
/// calls and refusals for memory are equal, whatever other tenants do.
pub fn served_tenants_are_answered_equally()
    ensures { ServingIsDetermined }
{}

/// A tenant that makes no call keeps its arrays.
pub fn idle_tenants_rest()
    ensures { IdleTenantsRest }
{}
