//! One tenant of the table, and its log-in.
ghost use Rattle.std.specs.Prelude.{◌≡◌, ◌<◌, ◌≤◌, ◌^◌, is_some, option_map};
ghost use Rattle.std.specs.Str.{bytes_eq};
ghost use Rattle.judy_table.specs.Shown.{others_told, told_of};
ghost use Rattle.judy_table.specs.Tenants.{tenant_of, up_to, pieces_for, journal_for, optional_digest, others_of};
ghost use Rattle.judy_table.specs.Tenants.{right_of, owns, may_change, is_kept_out, may_look, is_digest, is_vacant, vacant, no_others};
ghost use Rattle.judy_table.specs.Freezes.{digest_in, frozen_row, is_tenant_of};
ghost use Rattle.judy_table.specs.Seats.{gives, keeping};
ghost use Rattle.judy_table.specs.Unlimited.{unlimited_row};
ghost use Rattle.sha2.specs.Sha256.{sha256};

use crate::fault::TableFault;
use crate::written::{OtherTexts, Written};
use hex::FromHexError;
use judy_model::{ENTRIES_LIMIT, ENTRY_PIECES_LIMIT, Name, PIECES_LIMIT, Quota, Right};
use sha2::{Digest, Sha256};
use std::marker::Model;

/// The SHA-256 of each of a tenant's other tokens, as far as it has them.
#[derive(Clone, Copy)]
pub struct Others {
    /// Of its read-only token.
    pub look: Option<[u8; 32]>,
    /// Of its old token, which still logs in.
    pub former: Option<[u8; 32]>,
    /// Of its old read-only token, which still logs in.
    pub former_look: Option<[u8; 32]>,
}

/// A tenant: its name, the SHA-256 of its token, those of its other tokens, its quota, and its limit in a
/// journal.
#[derive(Drop)]
pub struct Tenant {
    pub name: Name,
    pub digest: [u8; 32],
    pub others: Others,
    pub quota: Quota,
    /// After how many bytes of records since the last snapshot a journal takes no more of it, if it has such a
    /// limit.
    pub journal: Option<u64>,
    /// The SHA-256 of the only token that changes its arrays, while it is frozen. No text of a table
    /// has it.
    pub frozen: Option<[u8; 32]>,
}

/// A row without a tenant.
impl Default for Tenant {
    ghost is_default = { λ t. t ≡ vacant };

    fn default() -> Tenant {
        Tenant::vacant()
    }
}

/// A tenant, by its place in the table of tenants. Only a table makes one.
#[derive(Clone, Copy, PartialEq, Eq, Debug)]
pub struct TenantId {
    place: u8,
}

impl Model for TenantId {
    ghost use Rattle.std.specs.Prelude.{ℕ};

    ghost Value = { ℕ };

    ghost view = { λ t. t.place };

    ghost inverse = { λ n. record { place = n } };
}

impl TenantId {
    /// The tenant at this place.
    pub(crate) fn at(place: u8) -> TenantId
        ensures { result ≡ place }
    {
        TenantId { place }
    }

    /// Its place in the table.
    pub fn place(self) -> u8
        ensures { result ≡ self }
    {
        self.place
    }
}

/// The tenant of a connection, its right, and the SHA-256 of the token with which it logged in.
#[derive(Clone, Copy, PartialEq, Eq, Debug)]
pub struct Speaker {
    pub tenant: TenantId,
    pub right: Right,
    pub digest: [u8; 32],
}

/// The number, if it is from 0 to `most`.
fn up_to(most: u64, written: i64) -> Option<u64>
    requires { most < 2 ^ 62 }
    ensures { result ≡ up_to most written }
{
    if written < 0 || written as u64 > most {
        None
    } else {
        Some(written as u64)
    }
}

/// Whether a number is a quota of entries.
pub(crate) fn is_quota(written: i64) -> bool
    ensures { result ≡ is_some (up_to ENTRIES_LIMIT written) }
{
    up_to(ENTRIES_LIMIT, written).is_some()
}

/// The quota of pieces of a tenant with this quota of entries.
fn pieces_for(entries: u64, written: Option<i64>) -> Option<u64>
    requires { entries ≤ ENTRIES_LIMIT }
    ensures { result ≡ pieces_for entries written }
{
    match written {
        Some(written) => up_to(PIECES_LIMIT, written),
        None => Some(ENTRY_PIECES_LIMIT * entries),
    }
}

/// The limit of a tenant's records in a journal, if one is given: a number from 1 on. None for another one.
fn journal_for(written: Option<i64>) -> Option<Option<u64>>
    ensures { result ≡ journal_for written }
{
    match written {
        Some(written) => {
            if written < 1 {
                return None;
            }
            Some(Some(written as u64))
        }
        None => Some(None),
    }
}

/// The 32 bytes of 64 hexadecimal digits, if they are given.
pub(crate) fn optional_digest(text: Option<&str>) -> Result<Option<[u8; 32]>, FromHexError>
    ensures { result ≡ optional_digest (option_map (λ s. s.now) text.entry) }
{
    let Some(text) = text else {
        return Ok(None);
    };
    let mut bytes = [0u8; 32];
    hex::decode_to_slice(text, &mut bytes)?;
    Ok(Some(bytes))
}

/// The 32 bytes of 64 hexadecimal digits. None for other bytes.
pub fn read_digest(text: &[u8]) -> Option<[u8; 32]>
    ensures { result ≡ digest_in text.now }
{
    let mut bytes = [0u8; 32];
    match hex::decode_to_slice(text, &mut bytes) {
        Ok(()) => Some(bytes),
        Err(_) => None,
    }
}

/// The digests of these texts.
fn others_of(texts: OtherTexts<'_>) -> Result<Others, FromHexError>
    ensures { result ≡ others_of (others_told texts.entry) }
{
    let look = optional_digest(texts.look)?;
    let former = optional_digest(texts.former)?;
    let former_look = optional_digest(texts.former_look)?;
    Ok(Others {
        look,
        former,
        former_look,
    })
}

/// The SHA-256 of a token.
pub(crate) fn digest_of(token: &[u8]) -> [u8; 32]
    ensures { result ≡ sha256 token.now }
{
    Sha256::digest(token)
}

/// Whether two digests are the same. It looks at all bytes, wherever they differ.
fn is_same(digest: &[u8; 32], shown: &[u8; 32]) -> bool
    ensures { result ≡ bytes_eq digest.now shown.now }
{
    let mut same = true;
    for at in 0..32usize {
        let equal = digest[at] == shown[at];
        same = same && equal;
    }
    same
}

/// Whether an optional digest is this one.
fn is_digest(digest: &Option<[u8; 32]>, shown: &[u8; 32]) -> bool
    ensures { result ≡ is_digest digest.now shown.now }
{
    match digest {
        Some(digest) => is_same(digest, shown),
        None => false,
    }
}

impl Others {
    /// No other token.
    fn none() -> Others
        ensures { result ≡ no_others }
    {
        Others {
            look: None,
            former: None,
            former_look: None,
        }
    }
}

impl Tenant {
    /// The tenant of this name with these values, or its first fault.
    pub(crate) fn new(name: &str, written: Written<'_>) -> Result<Tenant, TableFault>
        ensures { result ≡ tenant_of name.now (told_of written.entry) }
    {
        let name = Name::read(name.as_bytes()).ok_or(TableFault::Name)?;
        let mut digest = [0u8; 32];
        hex::decode_to_slice(written.digest, &mut digest).map_err(|_| TableFault::Digest)?;
        let others = others_of(written.others).map_err(|_| TableFault::Digest)?;
        let entries = up_to(ENTRIES_LIMIT, written.entries).ok_or(TableFault::Quota)?;
        let journal = journal_for(written.journal).ok_or(TableFault::Quota)?;
        let pieces = pieces_for(entries, written.pieces).ok_or(TableFault::Pieces)?;
        Ok(Tenant {
            name,
            digest,
            others,
            quota: Quota { entries, pieces },
            journal,
            frozen: None,
        })
    }

    /// The row of a place without a tenant.
    pub(crate) fn vacant() -> Tenant
        ensures { result ≡ vacant }
    {
        Tenant {
            name: Name::of(&[]),
            digest: [0; 32],
            others: Others::none(),
            quota: Quota {
                entries: 0,
                pieces: 0,
            },
            journal: None,
            frozen: None,
        }
    }

    /// Whether the row has no tenant: its name is empty.
    pub(crate) fn is_vacant(&self) -> bool
        ensures { result ≡ is_vacant self.now }
    {
        self.name.as_bytes().is_empty()
    }

    /// A copy of the row.
    pub(crate) fn copied(&self) -> Tenant
        ensures { result ≡ self.now }
    {
        Tenant {
            name: self.name.copied(),
            digest: self.digest,
            others: self.others,
            quota: self.quota,
            journal: self.journal,
            frozen: self.frozen,
        }
    }

    /// The row of the same tenant, with the greatest quota. A vacant row stays as it is.
    pub(crate) fn unlimited(&self) -> Tenant
        ensures { result ≡ unlimited_row self.now }
    {
        let mut row = self.copied();
        if !self.is_vacant() {
            row.quota = Quota {
                entries: ENTRIES_LIMIT,
                pieces: PIECES_LIMIT,
            };
        }
        row
    }

    /// The row of the same tenant with this freeze, or none. A vacant row stays as it is.
    pub(crate) fn keeping(mut self, kept: Option<[u8; 32]>) -> Tenant
        ensures { result ≡ keeping kept self }
    {
        let vacant = self.is_vacant();
        if !vacant {
            self.frozen = kept;
        }
        self
    }

    /// Gives the row this freeze, or none, if it has the tenant of this name. Whether it has.
    pub(crate) fn freeze(&mut self, name: &[u8], frozen: Option<[u8; 32]>) -> bool
        ensures known { result ≡ is_tenant_of name.now self.old }
        ensures row { self.new ≡ frozen_row name.now frozen self.old }
    {
        if self.is_vacant() || self.name.as_bytes() != name {
            return false;
        }
        self.frozen = frozen;
        true
    }

    /// Whether the token with this digest is the tenant's, or its old one. Both are compared in any
    /// case.
    fn owns(&self, shown: &[u8; 32]) -> bool
        ensures { result ≡ owns shown.now self.now }
    {
        let now = is_same(&self.digest, shown);
        let before = is_digest(&self.others.former, shown);
        now || before
    }

    /// Whether the token with this digest gives the right to change: it is the tenant's, or its old
    /// one, or, while the tenant is frozen, that of the freeze. All are compared in any case.
    fn may_change(&self, shown: &[u8; 32]) -> bool
        ensures { result ≡ may_change shown.now self.now }
    {
        let owns = self.owns(shown);
        let thaws = is_digest(&self.frozen, shown);
        if self.frozen.is_some() { thaws } else { owns }
    }

    /// Whether the token with this digest is the tenant's, or its old one, and the tenant is frozen.
    /// Both are compared in any case.
    fn is_kept_out(&self, shown: &[u8; 32]) -> bool
        ensures { result ≡ is_kept_out shown.now self.now }
    {
        let owns = self.owns(shown);
        self.frozen.is_some() && owns
    }

    /// Whether the token with this digest is the read-only one, or the old one. Both are compared in
    /// any case.
    fn may_look(&self, shown: &[u8; 32]) -> bool
        ensures { result ≡ may_look shown.now self.now }
    {
        let now = is_digest(&self.others.look, shown);
        let before = is_digest(&self.others.former_look, shown);
        now || before
    }

    /// Whether the token with this digest gives this right.
    pub(crate) fn gives(&self, right: Right, shown: &[u8; 32]) -> bool
        ensures { result ≡ gives right shown.now self.now }
    {
        match right {
            Right::Change => self.may_change(shown),
            Right::Frozen => self.is_kept_out(shown),
            Right::Look => self.may_look(shown),
        }
    }

    /// The right of the token with this digest: to read and write with the tenant's own token or its
    /// old one, or only to read with its read-only token or its old one. While the tenant is frozen,
    /// the token of the freeze gives the right to read and write, and the first two give that of a
    /// frozen tenant. A vacant row gives none. All digests are compared in any case.
    pub(crate) fn right(&self, shown: &[u8; 32]) -> Option<Right>
        ensures { result ≡ right_of shown.now self.now }
    {
        let changes = self.may_change(shown);
        let waits = self.is_kept_out(shown);
        let looks = self.may_look(shown);
        if self.is_vacant() {
            return None;
        }
        if changes {
            return Some(Right::Change);
        }
        if waits {
            return Some(Right::Frozen);
        }
        if looks {
            return Some(Right::Look);
        }
        None
    }
}
