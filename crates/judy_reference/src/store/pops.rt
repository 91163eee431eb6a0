//! Removals of the first entry of a range, which the reply shows, and of its first entries.
ghost use Rattle.std.specs.Prelude.{◌≡◌, true};
ghost use Rattle.judy_model.specs.Tenant.{first_up_to, long_step, one_step, string_step};
ghost use Rattle.judy_model.specs.declared.calls.LongCall.TheVariants as long;
ghost use Rattle.judy_model.specs.declared.calls.OneCall.TheVariants as one;
ghost use Rattle.judy_model.specs.declared.calls.StrCall.TheVariants as str;
ghost use Rattle.judy_reference.specs.Store.{on_array};

use super::directory::Directory;
use super::replies::value_key_or_null;
use crate::slow::{first_entry, first_string};
use arrayvec::ArrayVec;
use judy_model::{KEY_LIMIT, Key, Name, OwnedKey, Reply};

/// The least entry from `x` on, if its index is at most `most`.
fn first_up_to(entries: &[(u64, u64)], x: u64, most: u64) -> Option<(u64, u64)>
    ensures { result ≡ first_up_to entries.now x most }
{
    match first_entry(entries, x) {
        Some(found) => if found.0 <= most { Some(found) } else { None },
        None => None,
    }
}

/// Removes the least index of the set of this name from `x` up to `most`.
pub(super) fn pop_index(sets: &mut Directory<u64>, name: &Name, x: u64, most: u64) -> Reply<'static>
    ensures { on_array sets.old name.now (λ l. one_step true l (one.Pop x most))
        ≡ (result, sets.new) }
{
    match first_up_to(sets.content(name), x, most) {
        Some((index, _)) => {
            sets.remove(name, &index);
            Reply::Index(index)
        }
        None => Reply::Int(false),
    }
}

/// Removes the least index of the map of this name from `x` up to `most`.
pub(super) fn pop_entry(maps: &mut Directory<u64>, name: &Name, x: u64, most: u64) -> Reply<'static>
    ensures { on_array maps.old name.now (λ l. long_step true l (long.Pop x most))
        ≡ (result, maps.new) }
{
    match first_up_to(maps.content(name), x, most) {
        Some((index, value)) => {
            maps.remove(name, &index);
            Reply::ValueAt(value, index)
        }
        None => Reply::Null,
    }
}

/// Removes the least indexes of the set of this name from `x` up to `last`, at most `most`. The reply is how many it
/// removed. The same of a map of words.
pub(super) fn cut(
    arrays: &mut Directory<u64>,
    name: &Name,
    x: u64,
    last: u64,
    most: u16,
) -> Reply<'static>
    ensures { on_array arrays.old name.now (λ l. one_step true l (one.Cut x last most))
        ≡ (result, arrays.new) }
{
    let mut found = first_up_to(arrays.content(name), x, last);
    for count in 0..most {
        let Some((index, _)) = found else {
            return Reply::Count(u64::from(count));
        };
        arrays.remove(name, &index);
        found = first_up_to(arrays.content(name), x, last);
    }
    Reply::Count(u64::from(most))
}

/// Removes the least string of the map of this name from `x` on. The buffer gets its bytes.
pub(super) fn pop_string<'a>(
    maps: &mut Directory<OwnedKey>,
    name: &Name,
    x: &Key<'_>,
    buffer: &'a mut ArrayVec<u8, KEY_LIMIT>,
) -> Reply<'a>
    ensures { on_array maps.old name.now (λ l. string_step true l (str.Pop x.now))
        ≡ (result, maps.new) }
{
    let reply = value_key_or_null(first_string(maps.content(name), x), buffer);
    if let Reply::ValueKey(_, key) = &reply {
        maps.remove(name, &OwnedKey::of(key));
    }
    reply
}
