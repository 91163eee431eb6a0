//! Orders of the operator: a tenant is frozen or thawed.

use judy_model::Name;

/// How many hexadecimal digits the digest of a token has.
const DIGITS: usize = 64;

/// Whether all of these bytes are hexadecimal digits.
fn are_digits(text: &[u8]) -> bool {
    for at in 0..text.len() {
        if !text[at].is_ascii_hexdigit() {
            return false;
        }
    }
    true
}

/// Whether this is a tenant's name, a space, and the digest of a token.
fn freezes(text: &[u8]) -> bool {
    let Some(end) = text.len().checked_sub(DIGITS + 1) else {
        return false;
    };
    let (name, last) = text.split_at(end);
    let Some((space, digest)) = last.split_first() else {
        return false;
    };
    *space == b' ' && Name::read(name).is_some() && are_digits(digest)
}

/// Whether a line asks to freeze or thaw a tenant. No table is such a line.
pub fn is_order(line: &[u8]) -> bool {
    if let Some(name) = line.strip_prefix(b"THAW ".as_slice()) {
        return Name::read(name).is_some();
    }
    match line.strip_prefix(b"FREEZE ".as_slice()) {
        Some(rest) => freezes(rest),
        None => false,
    }
}
