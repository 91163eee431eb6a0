//! What a reply says of the arrays: whether they are as they were before the call.
ghost use Rattle.std.specs.Prelude.{◌≡◌};
ghost use Rattle.judy_model.specs.Unchanged.{bytes_leaves, insertion_leaves, keeps, leaves, long_leaves, one_leaves, says_no, says_none, says_nothing, says_null, says_other, says_some, string_leaves};

use crate::calls::{BytesCall, Call, Given, LongCall, OneCall, StrCall};
use crate::replies::Reply;

/// Whether an insertion whose reply shows this value left the value that was there.
fn keeps(given: Given, shown: u64) -> bool
    ensures { result ≡ keeps given shown }
{
    match given {
        Given::Nothing => 0 < shown,
        Given::Value(value) => 0 < shown && value == shown,
        Given::Plus(number) => 0 < shown && number == 0,
    }
}

/// Whether an insertion left the entry that was there.
fn insertion_leaves(given: Given, reply: &Reply<'_>) -> bool
    ensures { result ≡ insertion_leaves given reply.now }
{
    match reply {
        Reply::Value(shown) => keeps(given, *shown),
        _ => false,
    }
}

/// Whether a key was not new, or not there to be removed.
fn says_no(reply: &Reply<'_>) -> bool
    ensures { result ≡ says_no reply.now }
{
    match reply {
        Reply::Int(yes) => !*yes,
        _ => false,
    }
}

/// Whether the key was present.
fn says_some(reply: &Reply<'_>) -> bool
    ensures { result ≡ says_some reply.now }
{
    matches!(reply, Reply::Value(_))
}

/// Whether the key was absent.
fn says_null(reply: &Reply<'_>) -> bool
    ensures { result ≡ says_null reply.now }
{
    matches!(reply, Reply::Null)
}

/// Whether the key was absent, or had another value.
fn says_other(old: u64, reply: &Reply<'_>) -> bool
    ensures { result ≡ says_other old reply.now }
{
    match reply {
        Reply::Value(value) => *value != old,
        Reply::Null => true,
        _ => false,
    }
}

/// Whether a search found no entry.
fn says_nothing(reply: &Reply<'_>) -> bool
    ensures { result ≡ says_nothing reply.now }
{
    match reply {
        Reply::Int(found) => !*found,
        Reply::Null => true,
        _ => false,
    }
}

/// Whether there was no entry to be removed.
fn says_none(reply: &Reply<'_>) -> bool
    ensures { result ≡ says_none reply.now }
{
    match reply {
        Reply::Count(number) => *number == 0,
        _ => false,
    }
}

/// Whether the reply says that a call left its set.
fn one_leaves(call: &OneCall, reply: &Reply<'_>) -> bool
    ensures { result ≡ one_leaves call.now reply.now }
{
    match call {
        OneCall::Set(_) | OneCall::Unset(_) | OneCall::Fill(_) => says_no(reply),
        OneCall::Pop(..) => says_nothing(reply),
        OneCall::Cut(..) | OneCall::Free => says_none(reply),
        _ => false,
    }
}

/// Whether the reply says that a call left its map from words.
fn long_leaves(call: &LongCall, reply: &Reply<'_>) -> bool
    ensures { result ≡ long_leaves call.now reply.now }
{
    match call {
        LongCall::Insert(_, given) => insertion_leaves(*given, reply),
        LongCall::Keep(..) => says_some(reply),
        LongCall::Exchange(_, old, _) => says_other(*old, reply),
        LongCall::Delete(_) | LongCall::DeleteIf(..) | LongCall::Fill(..) => says_no(reply),
        LongCall::Take(_) => says_null(reply),
        LongCall::Pop(..) => says_nothing(reply),
        LongCall::Cut(..) | LongCall::Free => says_none(reply),
        _ => false,
    }
}

/// Whether the reply says that a call left its map from strings.
fn string_leaves(call: &StrCall<'_>, reply: &Reply<'_>) -> bool
    ensures { result ≡ string_leaves call.now reply.now }
{
    match call {
        StrCall::Insert(_, given) => insertion_leaves(*given, reply),
        StrCall::Keep(..) => says_some(reply),
        StrCall::Exchange(_, old, _) => says_other(*old, reply),
        StrCall::Delete(_) | StrCall::DeleteIf(..) => says_no(reply),
        StrCall::Take(_) => says_null(reply),
        StrCall::Pop(_) => says_nothing(reply),
        StrCall::Free => says_none(reply),
        _ => false,
    }
}

/// Whether the reply says that a call left its map from byte keys.
fn bytes_leaves(call: &BytesCall<'_>, reply: &Reply<'_>) -> bool
    ensures { result ≡ bytes_leaves call.now reply.now }
{
    match call {
        BytesCall::Insert(_, given) => insertion_leaves(*given, reply),
        BytesCall::Keep(..) => says_some(reply),
        BytesCall::Exchange(_, old, _) => says_other(*old, reply),
        BytesCall::Delete(_) | BytesCall::DeleteIf(..) => says_no(reply),
        BytesCall::Take(_) => says_null(reply),
        BytesCall::Free => says_none(reply),
        _ => false,
    }
}

impl<'a> Call<'a> {
    /// Whether this reply to the call says that it changed nothing: the index was there, or was not
    /// there to be removed, or has the value that it had. An insertion over a value 0 is not told from
    /// a new entry.
    pub fn leaves(&self, reply: &Reply<'_>) -> bool
        ensures { result ≡ leaves self.now reply.now }
    {
        match self {
            Call::One(_, call) => one_leaves(call, reply),
            Call::Long(_, call) => long_leaves(call, reply),
            Call::Str(_, call) => string_leaves(call, reply),
            Call::Bytes(_, call) => bytes_leaves(call, reply),
            Call::Intersect(..) | Call::Names(..) | Call::Used => false,
        }
    }
}
