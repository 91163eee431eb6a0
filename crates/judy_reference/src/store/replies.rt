//! Replies that show what was found.
ghost use Rattle.std.specs.Prelude.{◌≡◌};
ghost use Rattle.std.specs.Option.{option_copied};
ghost use Rattle.judy_model.specs.Tenant.{index_or_no, value_at_or_null, value_key_or_null, value_or_null, absent_or_no};

use arrayvec::ArrayVec;
use judy_model::{KEY_LIMIT, Key, OwnedKey, Reply};

/// The index of an entry that was found in a set, or 0.
pub(super) fn index_or_no(found: Option<(u64, u64)>) -> Reply<'static>
    ensures { result ≡ index_or_no found }
{
    match found {
        Some((index, _)) => Reply::Index(index),
        None => Reply::Int(false),
    }
}

/// The value and the index of an entry that was found in a JudyL.
pub(super) fn value_at_or_null(found: Option<(u64, u64)>) -> Reply<'static>
    ensures { result ≡ value_at_or_null found }
{
    match found {
        Some((index, value)) => Reply::ValueAt(value, index),
        None => Reply::Null,
    }
}

/// The value and the string of an entry that was found in a JudySL. The given buffer holds the
/// string.
pub(super) fn value_key_or_null<'a>(
    found: Option<&(OwnedKey, u64)>,
    room: &'a mut ArrayVec<u8, KEY_LIMIT>,
) -> Reply<'a>
    ensures { result ≡ value_key_or_null (option_copied found.entry) }
{
    match found {
        Some(entry) => {
            room.clear();
            let _fits = room.try_extend_from_slice(entry.0.key().as_bytes());
            Reply::ValueKey(entry.1, Key::of(room.as_slice()))
        }
        None => Reply::Null,
    }
}

/// The value of a key.
pub(super) fn value_or_null(found: Option<u64>) -> Reply<'static>
    ensures { result ≡ value_or_null found }
{
    match found {
        Some(value) => Reply::Value(value),
        None => Reply::Null,
    }
}

/// A word that was found to be absent, or 0.
pub(super) fn absent_or_no(found: Option<u64>) -> Reply<'static>
    ensures { result ≡ absent_or_no found }
{
    match found {
        Some(word) => Reply::Index(word),
        None => Reply::Int(false),
    }
}
