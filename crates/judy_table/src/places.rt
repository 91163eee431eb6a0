//! Where the tenants and their keys stand in a table's text.
ghost use Rattle.std.specs.Prelude.{◌≡◌, ◌≤◌, ◌⊎◌, ℕ, List, Some, IfSome, IsTrue, length, option_map};
ghost use Rattle.judy_table.specs.Blames.{StandsAt, StandsIn, line_after, line_of};

/// The line after these bytes, which begin in line 1.
fn line_after(before: &[u8]) -> usize
    ensures { result ≡ line_after 1 before.now }
{
    let mut line = 1usize;
    for byte in before {
        if *byte == b'\n' {
            line += 1;
        }
    }
    line
}

/// The line of a place, from 1 on.
pub fn line_of(text: &[u8], at: usize) -> usize
    requires { at ≤ length text.now }
    ensures { result ≡ line_of at text.now }
{
    line_after(text.split_at(at).0)
}

/// Whether blanks and quotes alone stand on the line before a place, and a bracket if one is wanted.
fn opens(before: &[u8], bracket: bool) -> bool {
    let mut seen = false;
    for byte in before.iter().rev() {
        match *byte {
            b'[' => seen = true,
            b' ' | b'\t' | b'"' | b'\'' => {}
            other => return other == b'\n' && seen == bracket,
        }
    }
    seen == bracket
}

/// Whether a word stands whole between these two bytes. If a quote stands before it, the same one ends it.
/// Without a quote no word is empty.
fn closes(before: u8, is_empty: bool, after: u8) -> bool {
    if before == b'"' || before == b'\'' {
        return after == before;
    }
    !is_empty && !after.is_ascii_alphanumeric() && after != b'_' && after != b'-'
}

/// Whether a word that begins a line stands here: with a bracket before it if one is wanted.
fn is_at(text: &[u8], at: usize, word: &[u8], bracket: bool) -> bool
    requires { at ≤ length text.now }
    ensures { IsTrue result → StandsAt word.now text.now at }
{
    let (before, from) = text.split_at(at);
    if !from.starts_with(word) || !opens(before, bracket) {
        return false;
    }
    let first = before.last().copied().unwrap_or(b'\n');
    let after = from.get(word.len()).copied().unwrap_or(b'\n');
    closes(first, word.is_empty(), after)
}

/// Where the name of a tenant stands first: in a heading, or at the front of a line without one.
fn name_at(text: &[u8], name: &[u8], bracket: bool) -> Option<usize>
    ensures { IfSome result (λ at. (at ≤ length text.now) × StandsAt name.now text.now at) }
{
    for at in 0..text.len() {
        if is_at(text, at, name, bracket) {
            return Some(at);
        }
    }
    None
}

/// Where a key stands at the front of a line, before the next heading.
fn key_at(text: &[u8], from: usize, key: &[u8]) -> Option<usize>
    ensures { IfSome result (λ at. (at ≤ length text.now) × StandsAt key.now text.now at) }
{
    for at in from..text.len() {
        let (before, rest) = text.split_at(at);
        if rest.starts_with(b"[") && opens(before, false) {
            return None;
        }
        if is_at(text, at, key, false) {
            return Some(at);
        }
    }
    None
}

/// The line in which a key of a tenant stands, or else the tenant's name.
pub fn line_with(text: &[u8], name: &[u8], key: Option<&[u8]>) -> Option<usize>
    ensures { IfSome result (λ line. StandsIn name.now text.now line
        ⊎ ((word : List ℕ) × (option_map (λ k. k.now) key.entry ≡ Some word) × StandsIn word text.now line)) }
{
    let heading = match name_at(text, name, true) {
        Some(at) => at,
        None => name_at(text, name, false)?,
    };
    if let Some(key) = key {
        if let Some(at) = key_at(text, heading, key) {
            return Some(line_of(text, at));
        }
    }
    Some(line_of(text, heading))
}
