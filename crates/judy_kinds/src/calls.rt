//! The array of a call, and what the call may do.
ghost use Rattle.std.specs.Prelude.{◌≡◌, IsTrue, IsFalse, MatchOption, IfSome};
ghost use Rattle.judy_kinds.specs.Calls.{is_of_array, kind_of_call, name_of_call, has_key_string, has_string};

use judy_model::{Call, Kind, Name, StrCall, is_string};

/// The kind and the name of the array that a call names. None for `Intersect`, which names two, and
/// for `Used`, which names none.
pub fn array_of<'c>(call: &'c Call<'_>) -> Option<(Kind, &'c Name)>
    ensures none { MatchOption result (IsFalse (is_of_array call.now))
        (λ a. IsTrue (is_of_array call.now)) }
    ensures kind { IfSome result (λ a. a.0 ≡ kind_of_call call.now) }
    ensures name { IfSome result (λ a. a.1.now ≡ name_of_call call.now) }
{
    match call {
        Call::One(name, _) => Some((Kind::One, name)),
        Call::Long(name, _) => Some((Kind::Long, name)),
        Call::Str(name, _) => Some((Kind::Str, name)),
        Call::Bytes(name, _) => Some((Kind::Bytes, name)),
        Call::Intersect(..) | Call::Names(..) | Call::Used => None,
    }
}

/// Whether an array can answer the call: the key of a JudySL call has to be a string, without a
/// byte 0.
pub fn is_callable(call: &Call<'_>) -> bool
    ensures { result ≡ has_string call.now }
{
    match call {
        Call::Str(_, call) => has_key_string(call),
        _ => true,
    }
}

/// Whether the key of a JudySL call is a string.
fn has_key_string(call: &StrCall<'_>) -> bool
    ensures { result ≡ has_key_string call.now }
{
    match call {
        StrCall::Insert(key, _)
        | StrCall::Keep(key, _)
        | StrCall::Exchange(key, _, _)
        | StrCall::Delete(key)
        | StrCall::DeleteIf(key, _)
        | StrCall::Take(key)
        | StrCall::Pop(key)
        | StrCall::Get(key)
        | StrCall::First(key)
        | StrCall::Next(key)
        | StrCall::Last(key)
        | StrCall::Prev(key)
        | StrCall::Walk(_, key, _) => is_string(key.as_bytes()),
        StrCall::Free => true,
    }
}
