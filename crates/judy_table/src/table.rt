//! The table of tenants.
ghost use Rattle.std.specs.Prelude.{◌≡◌, ◌⊎◌, ◌≤◌, ◌<◌, ◌&&◌, nat_le, IfOk, IfErr, IfSome, OnOk, Ok, Err, Some, None, true, option_map, [], length, map, slice_get};
ghost use Rattle.toml.specs.View.{table_view};
ghost use Rattle.judy_table.specs.Tenants.{size, have_shape, tenants_in, read_table, read_tree, place_of, login_of, HasRisingNames, is_vacant};
ghost use Rattle.judy_table.specs.Freezes.{has_tenant_of, with_freeze};
ghost use Rattle.judy_table.specs.Seats.{seated, AreRows, journal_at, knows, goes_on};
ghost use Rattle.judy_table.specs.Shown.{seen};
ghost use Rattle.judy_table.specs.Unlimited.{unlimited};
ghost use Rattle.sha2.specs.Sha256.{sha256};

use crate::fault::TableFault;
use crate::seating::{freeze, seat, unlimited};
use crate::tenant::{Speaker, Tenant, TenantId, digest_of};
use crate::written::{is_written, read_written, size};
use arrayvec::ArrayVec;
use judy_model::{ENTRIES_LIMIT, PIECES_LIMIT, Quota};
use std::alloc::{AllocError, Global};
use std::marker::Model;

/// The most tenants of a table.
pub const TENANTS_LIMIT: usize = 64;

/// The most rows of a table: places of tenants that left with the last table, and of all tenants.
pub const ROWS_LIMIT: usize = 128;

/// Room for as many rows as a table can have.
pub(crate) type Room = ArrayVec<Tenant, ROWS_LIMIT>;

/// The tenants by their places: at most 64 tenants, and vacant places. A table that was read has one
/// place for each tenant, in the byte order of their names.
#[derive(Drop)]
pub struct Table {
    tenants: Box<Room>,
}

impl Model for Table {
    ghost use Rattle.std.specs.Prelude.{List};
    ghost use Rattle.judy_table.specs.declared.tenant.Tenant.{Tenant};
    ghost use Rattle.judy_table.specs.Seats.{AreRows};

    ghost Value = { List Tenant };

    ghost view = { λ t. t.tenants.value.items };

    ghost invariant = { λ t. AreRows t.tenants.value.items };
}

// Whether each value is a tenant's table.
fn have_shape(tree: &toml::Table) -> bool
    ensures { result ≡ have_shape (table_view tree.now) }
{
    for value in tree.values() {
        if !is_written(value) {
            return false;
        }
    }
    true
}

// Room without rows.
fn empty_room(alloc: Global) -> Result<Box<Room>, AllocError>
    ensures { IfOk result (λ b. b.value.items ≡ []) }
{
    Box::new(alloc, ArrayVec::new()).map_err(|_| AllocError)
}

// Appends the tenants of a document, or tells the first fault of a tenant.
fn read_tenants(room: &mut Room, tree: &toml::Table) -> Result<(), TableFault>
    requires empty { room.old.items ≡ [] }
    requires few { size (table_view tree.now) ≤ 64 }
    ensures ok { OnOk result (tenants_in (table_view tree.now) ≡ Ok room.new.items) }
    ensures sorted { OnOk result (HasRisingNames room.new.items) }
    ensures fault { IfErr result (λ f. tenants_in (table_view tree.now) ≡ Err f) }
{
    for (name, value) in tree.iter() {
        let Some(written) = read_written(value) else {
            return Err(TableFault::Shape);
        };
        let tenant = Tenant::new(name.as_str(), written)?;
        room.push(tenant);
    }
    Ok(())
}

// The tenants of a document, or its first fault.
fn read_tree(alloc: Global, tree: &toml::Table) -> Result<Table, TableFault>
    ensures ok { IfOk result (λ t. read_tree (table_view tree.now) ≡ Ok t) }
    ensures sorted { IfOk result HasRisingNames }
    ensures fault { IfErr result (λ f. (f ≡ TableFault.Memory)
        ⊎ (read_tree (table_view tree.now) ≡ Err f)) }
{
    if !have_shape(tree) {
        return Err(TableFault::Shape);
    }
    if !has_count(tree) {
        return Err(TableFault::Count);
    }
    let mut tenants = empty_room(alloc).map_err(|_| TableFault::Memory)?;
    read_tenants(&mut tenants, tree)?;
    Ok(Table { tenants })
}

// Whether there are 1 to 64 tenants.
fn has_count(tree: &toml::Table) -> bool
    ensures { result ≡ (nat_le 1 (size (table_view tree.now))
        && nat_le (size (table_view tree.now)) 64) }
{
    let size = size(tree);
    1 <= size && size <= 64
}

// The place of the tenant of this name.
fn place_of(tenants: &[Tenant], name: &[u8]) -> Option<usize>
    ensures { result ≡ place_of name.now tenants.now }
{
    tenants.iter().position(|t| t.name.as_bytes() == name)
}

impl Table {
    /// A table without tenants. It has room for as many rows as a table can have.
    ///
    /// Err: out of memory.
    pub fn empty(alloc: Global) -> Result<Table, AllocError>
        ensures { IfOk result (λ t. t ≡ []) }
    {
        let tenants = empty_room(alloc)?;
        Ok(Table { tenants })
    }

    /// Reads a table of tenants.
    pub fn parse(alloc: Global, text: &[u8]) -> Result<Table, TableFault>
        ensures ok { IfOk result (λ t. read_table text.now ≡ Ok t) }
        ensures sorted { IfOk result HasRisingNames }
        ensures fault { IfErr result (λ f. (f ≡ TableFault.Memory)
            ⊎ (read_table text.now ≡ Err f)) }
    {
        match toml::table_from_slice(alloc, text) {
            Ok(tree) => read_tree(alloc, &tree),
            Err(e) => {
                if e.is_memory() {
                    Err(TableFault::Memory)
                } else {
                    Err(TableFault::Toml)
                }
            }
        }
    }

    /// The number of rows: at most 128.
    pub fn len(&self) -> usize
        ensures count { result ≡ length self.now }
        ensures most { result ≤ ROWS_LIMIT }
    {
        self.tenants.len()
    }

    /// What holds of the rows of every table. The function is empty: the contract is the law, for
    /// callers to cite.
    pub fn rows_are_sound(&self)
        ensures { AreRows self.now }
    {
        // The invariant of a table is known once its field is read.
        let _tenants = &self.tenants;
    }

    /// The tenant at a place.
    pub fn tenant(&self, place: usize) -> TenantId
        requires { place < length self.now }
        ensures { result ≡ place }
    {
        // The invariant of a table is known once its field is read.
        let _tenants = &self.tenants;
        TenantId::at(place as u8)
    }

    /// A tenant's name.
    pub fn name(&self, tenant: TenantId) -> &[u8]
        requires { tenant < length self.now }
        ensures { slice_get (map (λ t. t.name) self.now) tenant ≡ Some result.now }
    {
        self.tenants[tenant.place() as usize].name.as_bytes()
    }

    /// The tenant of this name.
    pub fn find(&self, name: &[u8]) -> Option<TenantId>
        ensures { result ≡ place_of name.now self.now }
    {
        place_of(&self.tenants, name).map(|place| TenantId::at(place as u8))
    }

    /// The tenant of this name and its right: to read and write with its own token, or only to read
    /// with its read-only token, and so with the old token of either; while it is frozen, as `freeze`
    /// says. None if no tenant has the name, or if the token is none of its tokens. The token is hashed
    /// once in any case.
    pub fn login(&self, name: &[u8], token: &[u8]) -> Option<Speaker>
        ensures who { option_map seen result ≡ login_of name.now token.now self.now }
        ensures digest { IfSome result (λ s. s.digest ≡ sha256 token.now) }
    {
        let shown = digest_of(token);
        let place = place_of(&self.tenants, name)?;
        let right = self.tenants[place].right(&shown)?;
        let tenant = TenantId::at(place as u8);
        Some(Speaker {
            tenant,
            right,
            digest: shown,
        })
    }

    /// The quota of a tenant of this table.
    pub fn quota(&self, tenant: TenantId) -> Quota
        requires { tenant < length self.now }
        ensures quota { slice_get (map (λ t. t.quota) self.now) tenant ≡ Some result }
        ensures entries { result.entries ≤ ENTRIES_LIMIT }
        ensures pieces { result.pieces ≤ PIECES_LIMIT }
    {
        self.tenants[tenant.place() as usize].quota
    }

    /// After how many bytes of records since the last snapshot a journal takes no more of a tenant, if it has such
    /// a limit. None for a place without a tenant.
    pub fn journal_limit(&self, tenant: TenantId) -> Option<u64>
        ensures { result ≡ journal_at self.now tenant }
    {
        self.tenants.get(tenant.place() as usize)?.journal
    }

    /// Whether no tenant has this place.
    pub fn is_vacant(&self, tenant: TenantId) -> bool
        requires { tenant < length self.now }
        ensures { slice_get (map is_vacant self.now) tenant ≡ Some result }
    {
        self.tenants[tenant.place() as usize].is_vacant()
    }

    /// Whether the speaker goes on: the speaker's place has a tenant, and the token with which the
    /// speaker logged in gives the speaker's right there.
    pub fn knows(&self, speaker: Speaker) -> bool
        ensures token { result ≡ goes_on self.now (seen speaker) speaker.digest }
        ensures known { result ≡ true → knows self.now (seen speaker) ≡ true }
    {
        let row = self.tenants.get(speaker.tenant.place() as usize);
        row.is_some_and(|row| !row.is_vacant() && row.gives(speaker.right, &speaker.digest))
    }

    /// Freezes a tenant. From now on a token with this SHA-256 gives the right to change its arrays, and
    /// its own token and its old one give the right of a frozen tenant. Its read-only tokens stay. A
    /// second freeze replaces the first.
    ///
    /// False: no tenant has the name, and nothing changed.
    pub fn freeze(&mut self, name: &[u8], digest: &[u8; 32]) -> bool
        ensures known { result ≡ has_tenant_of name.now self.old }
        ensures rows { self.new ≡ with_freeze name.now (Some digest.now) self.old }
    {
        freeze(&mut self.tenants, name, Some(*digest))
    }

    /// Thaws a tenant: its tokens give the rights that the table gives them. It need not be frozen.
    ///
    /// False: no tenant has the name, and nothing changed.
    pub fn thaw(&mut self, name: &[u8]) -> bool
        ensures known { result ≡ has_tenant_of name.now self.old }
        ensures rows { self.new ≡ with_freeze name.now None self.old }
    {
        freeze(&mut self.tenants, name, None)
    }

    /// Becomes the rows in force after another table is read; `rows` are those in force before. A tenant
    /// that stays keeps its place, and is frozen if it was. The place of one that is gone becomes vacant.
    /// The other tenants of the table take the places that were vacant before, and then new ones. It asks
    /// for no memory.
    pub fn seat(&mut self, rows: &Table, table: &Table)
        ensures { self.new ≡ seated rows.now table.now }
    {
        seat(&mut self.tenants, &rows.tenants, &table.tenants);
    }

    /// The same tenants at the same places, each with the greatest quota.
    ///
    /// Err: out of memory.
    pub fn unlimited(&self, alloc: Global) -> Result<Table, AllocError>
        ensures { IfOk result (λ t. t ≡ unlimited self.now) }
    {
        let mut tenants = empty_room(alloc)?;
        unlimited(&mut tenants, &self.tenants);
        Ok(Table { tenants })
    }
}
