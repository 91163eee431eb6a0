//! The record of tenants that left.
ghost use Rattle.std.specs.Prelude.{◌≡◌, ◌++◌, ◌∷◌, ℕ, List, [], true, None, Some, MatchOption};
ghost use Rattle.std.specs.List.{list_all};
ghost use Rattle.judy_model.specs.Grammar.{fields_of, is_name};
ghost use Rattle.judy_journal.specs.Leaving.{gone_in, gone_request};

use crate::format::put;
use arrayvec::ArrayVec;
use judy_model::{LINE_LIMIT, name_ok};
use judy_protocol::next_field;

/// Whether each field is a name.
fn are_names(fields: &[u8]) -> bool
    ensures { result ≡ list_all is_name (fields_of fields.now) }
{
    let mut rest = fields;
    while let Some((field, after)) = next_field(rest) {
        if !name_ok(field) {
            return false;
        }
        rest = after;
    }
    true
}

/// The first name of a record of tenants that left, and the fields that are the others. None if it is no
/// such record.
pub fn read_gone(record: &[u8]) -> Option<(&[u8], &[u8])>
    ensures { MatchOption result (gone_in record.now ≡ None)
        (λ r. gone_in record.now ≡ Some (r.0.now ∷ fields_of r.1.now)) }
{
    let (first, rest) = next_field(record)?;
    let (word, others) = next_field(rest)?;
    if word != b"GONE".as_slice() {
        return None;
    }
    if !name_ok(first) || !are_names(others) {
        return None;
    }
    Some((first, others))
}

/// Begins what stands behind the first name of such a record.
pub fn begin_gone(request: &mut ArrayVec<u8, LINE_LIMIT>)
    ensures { request.new.items ≡ gone_request [] }
{
    request.clear();
    let _fits = request.try_extend_from_slice(b"GONE");
}

/// Adds the name of another tenant. False if it does not fit.
pub fn add_gone(request: &mut ArrayVec<u8, LINE_LIMIT>, name: &[u8]) -> bool
    ensures { result ≡ true → (others : List (List ℕ)) → request.old.items ≡ gone_request others
        → request.new.items ≡ gone_request (others ++ name.now ∷ []) }
{
    if request.len() + 1 + name.len() > LINE_LIMIT {
        return false;
    }
    put(request, b" ");
    put(request, name);
    true
}
