//! Records of tenants who left: `FIRST GONE`, or `FIRST GONE SECOND THIRD ..`.
ghost use Rattle.std.specs.Prelude.{◌≡◌, ◌<◌, ◌++◌, ◌∷◌, ℕ, List, [], length, IfNone, IfSome};
ghost use Rattle.judy_upkeep.specs.Leaving.{AreNames, IsGone};

use bstr::ByteSlice;

/// The request of such a record.
pub const GONE: &[u8; 4] = b"GONE";

/// The names behind the word of a record of tenants who left, with a space before each. None if the request is
/// another.
pub fn others_gone(request: &[u8]) -> Option<&[u8]>
    ensures { IfSome result (λ names. IsGone request.now names.now) }
{
    let rest = request.strip_prefix(GONE.as_slice())?;
    if rest.is_empty() || rest.starts_with(b" ") {
        return Some(rest);
    }
    None
}

/// The first of some names, with a space before each, and the others. None if there is none.
pub fn cut_name(names: &[u8]) -> Option<(&[u8], &[u8])>
    ensures cut { IfSome result (λ cut. (space : ℕ) × (names.now ≡ space ∷ cut.0.now ++ cut.1.now)) }
    ensures others { IfSome result (λ cut. AreNames cut.1.now) }
    ensures shorter { IfSome result (λ cut. length cut.1.now < length names.now) }
    ensures none { IfNone result (names.now ≡ []) }
{
    let (_, rest) = names.split_first()?;
    match rest.find_byte(b' ') {
        Some(at) => Some(rest.split_at(at)),
        None => Some((rest, b"")),
    }
}
