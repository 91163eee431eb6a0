//! Insertions of the first absent word of a range, which the reply shows.
ghost use Rattle.std.specs.Prelude.{◌≡◌, IsTrue, IfOk, OnErr};
ghost use Rattle.judy_model.specs.Contents.{word_order};
ghost use Rattle.judy_model.specs.Gaps.{first_empty};
ghost use Rattle.judy_model.specs.Tenant.{content_of, fill_over, lacks};
ghost use Rattle.judy_reference.specs.Store.{on_array};

use super::directory::Directory;
use crate::slow::first_gap;
use judy_model::{Name, Reply};
use std::alloc::{AllocError, Global};

/// Inserts the least word from `x` on that the array of this name lacks, with this value, if there is room. `Err`
/// means out of memory for a new entry that the quota has room for; nothing changed.
pub(super) fn fill(
    alloc: Global,
    arrays: &mut Directory<u64>,
    room: bool,
    name: &Name,
    x: u64,
    value: u64,
) -> Result<Reply<'static>, AllocError>
    ensures ok { IfOk result
        (λ reply. on_array arrays.old name.now
        (λ l. fill_over word_order room l (λ i. i) value (first_empty l x)) ≡ (reply, arrays.new)) }
    ensures unchanged { OnErr result (arrays.new ≡ arrays.old) }
    ensures lacks { OnErr result (let l = content_of arrays.old name.now in
        IsTrue room × IsTrue (lacks word_order l (first_empty l x))) }
{
    let Some(index) = first_gap(arrays.content(name), x) else {
        return Ok(Reply::Int(false));
    };
    match arrays.get(name, &index) {
        // Never: an absent word was found.
        Some(_) => Ok(Reply::Index(index)),
        None if !room => Ok(Reply::Full),
        None => {
            arrays.put(alloc, name, index, value)?;
            Ok(Reply::Index(index))
        }
    }
}
