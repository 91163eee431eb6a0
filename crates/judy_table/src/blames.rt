//! Where the first fault of a table is, and what is right: a line for the operator.
ghost use Rattle.std.specs.Prelude.{◌≡◌, Err, IfSome, IsTrue, None, option_map};
ghost use Rattle.toml.specs.Errors.{IsWithin};
ghost use Rattle.toml.specs.View.{table_view, view};
ghost use Rattle.judy_table.specs.Blames.{IsBlamed, IsCauseOf, IsCulprit, IsLineOf, digest_key, first_number, first_wrong, is_wrong, number_key};
ghost use Rattle.judy_table.specs.Faults.{IsDocument};
ghost use Rattle.judy_table.specs.Shown.{told_of};
ghost use Rattle.judy_table.specs.Tenants.{read_table, tenant_if_written, written};

use crate::fault::TableFault;
use crate::places::{line_of, line_with};
use crate::table::Table;
use crate::tenant::{Tenant, is_quota, optional_digest};
use crate::written::{Written, read_written};
use arrayvec::ArrayVec;
use judy_model::{NAME_LIMIT, Name};
use std::alloc::Global;
use std::fmt;
use toml::Value;

/// The most bytes of a heading with two names.
const HEADING_LIMIT: usize = 2 * NAME_LIMIT + 1;

/// The keys of a tenant.
#[derive(Clone, Copy, Debug, PartialEq, Eq)]
pub enum Key {
    /// `sha256`.
    Digest,
    /// `quota`.
    Quota,
    /// `pieces`.
    Pieces,
    /// `journal`.
    Journal,
    /// `read_sha256`.
    Look,
    /// `old_sha256`.
    Former,
    /// `old_read_sha256`.
    FormerLook,
}

/// The keys of a tenant, in the order in which they are looked at.
const KEYS: [Key; 7] = [
    Key::Digest,
    Key::Quota,
    Key::Pieces,
    Key::Journal,
    Key::Look,
    Key::Former,
    Key::FormerLook,
];

/// What is wrong.
#[derive(Drop)]
pub enum Cause {
    /// The text is no TOML.
    Text(toml::de::Error),
    /// There are no tenants, or too many.
    Count,
    /// The tenant's name.
    Name,
    /// The tenant is no table.
    NoTable,
    /// The tenant lacks this key.
    Missing(Key),
    /// The value of this key.
    Wrong(Key),
    /// The tenant has a key that no tenant has. The key is here if it is short and plain.
    Unknown(Option<Name>),
    /// The tenant has a table within it, of this name if that is short and plain.
    Inner(Option<Name>),
}

/// The first fault of a table, and where it is.
#[derive(Drop)]
pub struct Blame {
    /// The fault.
    pub fault: TableFault,
    /// The line of the text, if it was found.
    pub line: Option<usize>,
    /// The tenant, if one has the fault and its name is plain.
    pub tenant: Option<Name>,
    /// What is wrong.
    pub cause: Cause,
}

impl Key {
    /// The key as a table has it.
    fn name(self) -> &'static str {
        match self {
            Key::Digest => "sha256",
            Key::Quota => "quota",
            Key::Pieces => "pieces",
            Key::Journal => "journal",
            Key::Look => "read_sha256",
            Key::Former => "old_sha256",
            Key::FormerLook => "old_read_sha256",
        }
    }

    /// Whether each tenant has the key.
    fn is_needed(self) -> bool {
        matches!(self, Key::Digest | Key::Quota)
    }

    /// Whether the value has the type of the key.
    fn fits(self, value: &Value) -> bool {
        match self {
            Key::Quota | Key::Pieces | Key::Journal => value.as_integer().is_some(),
            Key::Digest | Key::Look | Key::Former | Key::FormerLook => value.as_str().is_some(),
        }
    }

    /// What the value must be.
    fn rule(self) -> &'static str {
        match self {
            Key::Digest | Key::Look | Key::Former | Key::FormerLook => {
                "must be the SHA-256 of a token, 64 hexadecimal digits in quotes: judy digest prints its line"
            }
            Key::Quota => "must be a whole number from 0 to 16777216",
            Key::Pieces => "must be a whole number from 0 to 2113929216",
            Key::Journal => "must be a whole number from 1 to 9223372036854775807",
        }
    }
}

impl Cause {
    /// The key that stands in the line of the fault.
    fn key(&self) -> Option<&[u8]> {
        match self {
            Cause::Wrong(key) => Some(key.name().as_bytes()),
            Cause::Unknown(Some(key)) => Some(key.as_bytes()),
            _ => None,
        }
    }
}

/// Whether a tenant by itself has this fault.
fn has_fault(name: &str, value: &Value, fault: TableFault) -> bool
    ensures { IsTrue result
        → tenant_if_written name.now (written (view value.now)) ≡ Err fault }
{
    let Some(written) = read_written(value) else {
        return fault == TableFault::Shape;
    };
    match Tenant::new(name, written) {
        Ok(_tenant) => false,
        Err(own) => fault == own,
    }
}

/// The first tenant of a document that has this fault.
fn culprit<'a>(tree: &'a toml::Table, fault: TableFault) -> Option<(&'a str, &'a Value)>
    ensures { IfSome result (λ c. IsCulprit fault c.0.now (view c.1.now) (table_view tree.now)) }
{
    for (name, value) in tree.iter() {
        if has_fault(name.as_str(), value, fault) {
            return Some((name.as_str(), value));
        }
    }
    None
}

/// Whether a tenant may have this key.
fn is_key(key: &str) -> bool {
    for known in KEYS {
        if key == known.name() {
            return true;
        }
    }
    false
}

/// A key that no tenant has, or a table within a tenant.
fn unknown_in(table: &toml::Table) -> Option<Cause> {
    for (key, value) in table.iter() {
        let key = key.as_str();
        if !is_key(key) {
            let name = Name::read(key.as_bytes());
            if value.as_table().is_some() {
                return Some(Cause::Inner(name));
            }
            return Some(Cause::Unknown(name));
        }
    }
    None
}

/// What is wrong with a key that each tenant has, or may have.
fn wrong_at(table: &toml::Table, key: Key) -> Option<Cause> {
    match table.get(key.name()) {
        Some(value) => {
            if key.fits(value) {
                return None;
            }
            Some(Cause::Wrong(key))
        }
        None => {
            if key.is_needed() {
                return Some(Cause::Missing(key));
            }
            None
        }
    }
}

/// What is wrong with the keys of a tenant.
fn shape_cause(value: &Value) -> Cause {
    let Some(table) = value.as_table() else {
        return Cause::NoTable;
    };
    if let Some(cause) = unknown_in(table) {
        return cause;
    }
    for key in [
        Key::Digest,
        Key::Quota,
        Key::Pieces,
        Key::Journal,
        Key::Look,
        Key::Former,
    ] {
        if let Some(cause) = wrong_at(table, key) {
            return cause;
        }
    }
    Cause::Wrong(Key::FormerLook)
}

/// Whether a digest is given, and is none.
fn is_wrong(text: Option<&str>) -> bool
    ensures { result ≡ is_wrong (option_map (λ s. s.now) text.entry) }
{
    optional_digest(text).is_err()
}

/// The key of the first of a tenant's digests that is none, or else the last key.
fn first_wrong(written: Written<'_>) -> Key
    ensures { result ≡ first_wrong (told_of written.entry) }
{
    if is_wrong(Some(written.digest)) {
        return Key::Digest;
    }
    if is_wrong(written.others.look) {
        return Key::Look;
    }
    if is_wrong(written.others.former) {
        return Key::Former;
    }
    Key::FormerLook
}

/// The key of the quota or, if that is one, of the limit in a journal.
fn first_number(written: Written<'_>) -> Key
    ensures { result ≡ first_number (told_of written.entry) }
{
    if is_quota(written.entries) {
        return Key::Journal;
    }
    Key::Quota
}

/// Which of a tenant's numbers is none.
fn number_key(value: &Value) -> Key
    ensures { result ≡ number_key (written (view value.now)) }
{
    match read_written(value) {
        Some(written) => first_number(written),
        None => Key::Quota,
    }
}

/// Which of a tenant's digests is none.
fn digest_key(value: &Value) -> Key
    ensures { result ≡ digest_key (written (view value.now)) }
{
    match read_written(value) {
        Some(written) => first_wrong(written),
        None => Key::Digest,
    }
}

/// What is wrong with a tenant that has this fault.
fn cause_of(fault: TableFault, value: &Value) -> Cause
    ensures { IsCauseOf fault (written (view value.now)) result }
{
    match fault {
        TableFault::Name => Cause::Name,
        TableFault::Digest => Cause::Wrong(digest_key(value)),
        TableFault::Quota => Cause::Wrong(number_key(value)),
        TableFault::Pieces => Cause::Wrong(Key::Pieces),
        _ => shape_cause(value),
    }
}

/// The line of the heading of a table within a tenant.
fn inner_line(text: &[u8], name: &[u8], inner: &Name) -> Option<usize>
    ensures { IfSome result (IsLineOf text.now) }
{
    let mut heading: ArrayVec<u8, HEADING_LIMIT> = ArrayVec::new();
    for part in [name, b".", inner.as_bytes()] {
        heading.try_extend_from_slice(part).ok()?;
    }
    line_with(text, heading.as_slice(), None)
}

/// The line of a fault of a tenant of this name.
fn line_for(text: &[u8], name: &[u8], cause: &Cause) -> Option<usize>
    ensures { IfSome result (IsLineOf text.now) }
{
    if let Cause::Inner(Some(inner)) = cause {
        if let Some(line) = inner_line(text, name, inner) {
            return Some(line);
        }
    }
    line_with(text, name, cause.key())
}

/// Where this fault of a document is.
fn blame_tree(text: &[u8], tree: &toml::Table, fault: TableFault) -> Blame
    requires { IsDocument text.now (table_view tree.now) }
    ensures fault { result.fault ≡ fault }
    ensures tenant { IfSome result.tenant (IsBlamed fault result.cause text.now) }
    ensures line { IfSome result.line (IsLineOf text.now) }
{
    let Some((name, value)) = culprit(tree, fault) else {
        return Blame {
            fault,
            line: None,
            tenant: None,
            cause: Cause::Count,
        };
    };
    let cause = cause_of(fault, value);
    Blame {
        fault,
        line: line_for(text, name.as_bytes(), &cause),
        tenant: Name::read(name.as_bytes()),
        cause,
    }
}

/// Where a text is no document. None if that is not known, since memory ran out.
fn blame_text(text: &[u8], fault: TableFault, error: toml::de::Error) -> Option<Blame>
    requires { IsWithin text.now error }
    ensures fault { IfSome result (λ b. b.fault ≡ fault) }
    ensures tenant { IfSome result (λ b. b.tenant ≡ None) }
    ensures line { IfSome result (λ b. IfSome b.line (IsLineOf text.now)) }
{
    let span = error.span()?;
    Some(Blame {
        fault,
        line: Some(line_of(text, span.start)),
        tenant: None,
        cause: Cause::Text(error),
    })
}

impl Blame {
    /// Where the first fault of a table's text is. None if it has no fault, or if memory ran out.
    ///
    /// The fault is that of the text. The tenant that is told has this fault, the key of a digest that is
    /// told is that of the first digest that is none, and the line is one of the text.
    pub fn find(alloc: Global, text: &[u8]) -> Option<Blame>
        ensures fault { IfSome result (λ b. read_table text.now ≡ Err b.fault) }
        ensures tenant { IfSome result (λ b. IfSome b.tenant (IsBlamed b.fault b.cause text.now)) }
        ensures line { IfSome result (λ b. IfSome b.line (IsLineOf text.now)) }
    {
        let fault = match Table::parse(alloc, text) {
            Ok(_table) => return None,
            Err(TableFault::Memory) => return None,
            Err(fault) => fault,
        };
        match toml::table_from_slice(alloc, text) {
            Ok(tree) => Some(blame_tree(text, &tree, fault)),
            Err(error) => blame_text(text, fault, error),
        }
    }
}

/// Writes a name, which is ASCII.
fn write_name<W: fmt::Write>(f: &mut fmt::Formatter<W>, name: &Name) -> fmt::Result {
    f.write_str(str::from_utf8(name.as_bytes()).unwrap_or("?"))
}

/// Writes what is wrong, and what is right.
impl fmt::Display for Cause {
    fn fmt<W: fmt::Write>(&self, f: &mut fmt::Formatter<W>) -> fmt::Result {
        match self {
            Cause::Text(error) => {
                let message = error.message();
                write!(f, "this is not TOML: {message}")
            }
            Cause::Count => f.write_str("a table has 1 to 64 tenants"),
            Cause::Name => f.write_str("the name of a tenant must be 1 to 32 of A-Z a-z 0-9 _ - ."),
            Cause::NoTable => {
                f.write_str("a tenant must be a table: its keys stand below its name, [NAME]")
            }
            Cause::Missing(key) => {
                let (name, rule) = (key.name(), key.rule());
                write!(f, "{name} is missing: it {rule}")
            }
            Cause::Wrong(key) => {
                let (name, rule) = (key.name(), key.rule());
                write!(f, "{name} {rule}")
            }
            Cause::Unknown(key) => {
                f.write_str("the key ")?;
                if let Some(name) = key {
                    write_name(f, name)?;
                    f.write_str(" ")?;
                }
                f.write_str(
                    "is unknown: the keys are sha256, quota, pieces, journal, read_sha256, ",
                )?;
                f.write_str("old_sha256 and old_read_sha256")
            }
            Cause::Inner(_) => f.write_str(
                "a table within it is no key: a name with a dot is written in quotes, as [\"a.b\"]",
            ),
        }
    }
}

/// Writes the line and the tenant, as far as they are known, what is wrong, and what is right.
impl fmt::Display for Blame {
    fn fmt<W: fmt::Write>(&self, f: &mut fmt::Formatter<W>) -> fmt::Result {
        if let Some(line) = self.line {
            write!(f, "line {line}")?;
            f.write_str(if self.tenant.is_some() { ", " } else { ": " })?;
        }
        if let Some(name) = &self.tenant {
            f.write_str("tenant ")?;
            write_name(f, name)?;
            f.write_str(": ")?;
        }
        let cause = &self.cause;
        write!(f, "{cause}")
    }
}
