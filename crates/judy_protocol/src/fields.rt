//! Cuts a line into its fields.
ghost use Rattle.std.specs.Prelude.{◌≡◌, ◌≢◌, ◌≤◌, ◌<◌, ◌⊎◌, ℕ, [], ◌∷◌, MatchOption, length, slice_index};
ghost use Rattle.judy_model.specs.Grammar.{fields_of};
ghost use Rattle.judy_protocol.specs.Digits.{may_follow};

/// The place of the first byte that is not a space.
fn field_start(line: &[u8]) -> Option<usize>
    ensures { MatchOption result ((k : ℕ) → k < length line.now → slice_index line.now k ≡ 32)
        (λ start. (start < length line.now) × ((k : ℕ) → k < start → slice_index line.now k ≡ 32)
        × (slice_index line.now start ≢ 32)) }
{
    line.iter().position(|b| *b != b' ')
}

/// The text from its first field on.
pub fn to_field(text: &[u8]) -> Option<&[u8]>
    ensures { MatchOption result (fields_of text.now ≡ [])
        (λ from. (fields_of from.now ≡ fields_of text.now) × (fields_of text.now ≢ [])) }
{
    let start = field_start(text)?;
    let (_, from) = text.split_at(start);
    Some(from)
}

/// Whether a text may come after a field: it is empty or begins with a space.
pub fn ends_field(text: &[u8]) -> bool
    ensures { result ≡ may_follow text.now }
{
    match text {
        [] => true,
        [first, ..] => *first == b' ',
    }
}

/// How many bytes come before the first space.
fn field_len(from: &[u8]) -> usize
    ensures within { result ≤ length from.now }
    ensures before { (k : ℕ) → k < result → slice_index from.now k ≢ 32 }
    ensures end { (length from.now ≡ result) ⊎ (slice_index from.now result ≡ 32) }
{
    let len = from.iter().position(|b| *b == b' ');
    len.unwrap_or(from.len())
}

/// The first field of a line, and what comes after it.
pub fn next_field(line: &[u8]) -> Option<(&[u8], &[u8])>
    ensures { MatchOption result (fields_of line.now ≡ [])
        (λ cut. fields_of line.now ≡ cut.0.now ∷ fields_of cut.1.now) }
{
    let Some(start) = field_start(line) else {
        return None;
    };
    let (_, from) = line.split_at(start);
    Some(from.split_at(field_len(from)))
}
