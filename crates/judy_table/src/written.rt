//! The values that a table's text gives for one tenant.
ghost use Rattle.std.specs.Prelude.{◌≡◌, Some, is_some, option_map, option_and_then};
ghost use Rattle.toml.specs.Data.{as_str, as_integer, get_member};
ghost use Rattle.toml.specs.View.{view, table_view};
ghost use Rattle.judy_table.specs.Tenants.{written, written_in, all_of, all_others, others_in, count_others, size, optional, one_if_some};
ghost use Rattle.judy_table.specs.Shown.{told_of, others_told};

use toml::Value;

/// The texts of the digests of a tenant's other tokens, as far as they are given: of its read-only
/// token, and of its old tokens, which still log in.
#[derive(Clone, Copy)]
pub struct OtherTexts<'a> {
    pub look: Option<&'a str>,
    pub former: Option<&'a str>,
    pub former_look: Option<&'a str>,
}

/// The values for a tenant: the text of its digest, its quota of entries, and, if given, its quota
/// of pieces, the limit of its records in a journal, and the texts of the digests of its other tokens.
#[derive(Clone, Copy)]
pub struct Written<'a> {
    pub digest: &'a str,
    pub entries: i64,
    pub pieces: Option<i64>,
    pub journal: Option<i64>,
    pub others: OtherTexts<'a>,
}

// The string of a key.
fn string_at<'a>(table: &'a toml::Table, key: &str) -> Option<&'a str>
    ensures { option_map (λ s. s.now) result
        ≡ option_and_then as_str (get_member key.now (table_view table.now)) }
{
    match table.get(key) {
        Some(value) => value.as_str(),
        None => None,
    }
}

// The integer of a key.
fn integer_at(table: &toml::Table, key: &str) -> Option<i64>
    ensures { result ≡ option_and_then as_integer (get_member key.now (table_view table.now)) }
{
    match table.get(key) {
        Some(value) => value.as_integer(),
        None => None,
    }
}

// The string of a value. None if the value has another type.
fn present_string(value: &Value) -> Option<Option<&str>>
    ensures { option_map (λ o. option_map (λ s. s.now) o) result
        ≡ option_map Some (as_str (view value.now)) }
{
    Some(Some(value.as_str()?))
}

// The integer of a value. None if the value has another type.
fn present_integer(value: &Value) -> Option<Option<i64>>
    ensures { result ≡ option_map Some (as_integer (view value.now)) }
{
    Some(Some(value.as_integer()?))
}

// The string of an optional key. None if the key has another type.
fn optional_string_at<'a>(table: &'a toml::Table, key: &str) -> Option<Option<&'a str>>
    ensures { option_map (λ o. option_map (λ s. s.now) o) result
        ≡ optional as_str (get_member key.now (table_view table.now)) }
{
    match table.get(key) {
        Some(value) => present_string(value),
        None => Some(None),
    }
}

// The integer of an optional key. None if the key has another type.
fn optional_integer_at(table: &toml::Table, key: &str) -> Option<Option<i64>>
    ensures { result ≡ optional as_integer (get_member key.now (table_view table.now)) }
{
    match table.get(key) {
        Some(value) => present_integer(value),
        None => Some(None),
    }
}

/// The number of keys of a table.
#[tactic(auto, using(crate::proofs::Trees::size_members_view))]
pub fn size(table: &toml::Table) -> usize
    ensures { result ≡ size (table_view table.now) }
{
    table.len()
}

// 1 for a number, 0 for none.
fn counted_number(number: Option<i64>) -> usize
    ensures { result ≡ one_if_some number }
{
    usize::from(number.is_some())
}

// 1 for a text, 0 for none.
fn counted_text(text: Option<&str>) -> usize
    ensures { result ≡ one_if_some (option_map (λ s. s.now) text.entry) }
{
    usize::from(text.is_some())
}

// How many of these texts are given.
fn count_others(others: OtherTexts<'_>) -> usize
    ensures { result ≡ count_others (others_told others.entry) }
{
    counted_text(others.look) + counted_text(others.former) + counted_text(others.former_look)
}

// The texts of the other digests. None if one of them has another type.
fn all_others<'a>(
    look: Option<Option<&'a str>>,
    former: Option<Option<&'a str>>,
    former_look: Option<Option<&'a str>>,
) -> Option<OtherTexts<'a>>
    ensures { option_map others_told result
        ≡ all_others (option_map (λ o. option_map (λ s. s.now) o) look.entry)
        (option_map (λ o. option_map (λ s. s.now) o) former.entry)
        (option_map (λ o. option_map (λ s. s.now) o) former_look.entry) }
{
    match (look, former, former_look) {
        (Some(look), Some(former), Some(former_look)) => Some(OtherTexts {
            look,
            former,
            former_look,
        }),
        _ => None,
    }
}

// The texts of the other digests in a tenant's table.
fn others_in(table: &toml::Table) -> Option<OtherTexts<'_>>
    ensures { option_map others_told result ≡ others_in (table_view table.now) }
{
    all_others(
        optional_string_at(table, "read_sha256"),
        optional_string_at(table, "old_sha256"),
        optional_string_at(table, "old_read_sha256"),
    )
}

// The values of a table with this many keys. None if it has other keys.
fn all_of<'a>(
    keys: usize,
    digest: Option<&'a str>,
    entries: Option<i64>,
    pieces: Option<Option<i64>>,
    journal: Option<Option<i64>>,
    others: Option<OtherTexts<'a>>,
) -> Option<Written<'a>>
    ensures { option_map told_of result
        ≡ all_of keys (option_map (λ s. s.now) digest.entry) entries pieces journal
        (option_map others_told others.entry) }
{
    match (digest, entries, pieces, journal, others) {
        (Some(digest), Some(entries), Some(pieces), Some(journal), Some(others)) => {
            if keys == 2 + counted_number(pieces) + counted_number(journal) + count_others(others) {
                Some(Written {
                    digest,
                    entries,
                    pieces,
                    journal,
                    others,
                })
            } else {
                None
            }
        }
        _ => None,
    }
}

// The values in a tenant's table, if it has the right shape.
fn read_written_in(table: &toml::Table) -> Option<Written<'_>>
    ensures { option_map told_of result ≡ written_in (table_view table.now) }
{
    all_of(
        size(table),
        string_at(table, "sha256"),
        integer_at(table, "quota"),
        optional_integer_at(table, "pieces"),
        optional_integer_at(table, "journal"),
        others_in(table),
    )
}

/// The values for a tenant, if the value is a tenant's table of the right shape.
pub fn read_written(value: &Value) -> Option<Written<'_>>
    ensures { option_map told_of result ≡ written (view value.now) }
{
    read_written_in(value.as_table()?)
}

/// Whether the value is a tenant's table of the right shape.
pub fn is_written(value: &Value) -> bool
    ensures { result ≡ is_some (written (view value.now)) }
{
    read_written(value).is_some()
}
