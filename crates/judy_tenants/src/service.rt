//! Many tenants, their arrays and their quotas.
ghost use Rattle.std.specs.Prelude.{◌≡◌, ◌<◌, ◌≤◌, ℕ, IfErr, IfOk, IfSome, IsTrue, None, Some, false, true, get_or, nat_lt, length, map, slice_get, option_map, OnOk, OnErr, max, ◌+◌};
ghost use Rattle.judy_model.specs.Tenant.{used, pieces, no_arrays};
ghost use Rattle.judy_model.specs.Service.{IsServed};
ghost use Rattle.judy_model.specs.Solo.{is_memory};
ghost use Rattle.judy_directory.specs.Secrets.{start_of};
ghost use Rattle.judy_kinds.specs.Calls.{has_string};
ghost use Rattle.judy_table.specs.Shown.{seen};
ghost use Rattle.judy_table.specs.Freezes.{has_tenant_of, with_freeze};
ghost use Rattle.judy_table.specs.Seats.{AreRows, goes_on, journal_at, knows, seated};
ghost use Rattle.judy_table.specs.Tenants.{is_vacant, login_of, place_of};
ghost use Rattle.sha2.specs.Sha256.{sha256};
ghost use Rattle.judy_tenants.specs.Changes.{HasChanged, HasFreed, HasReason, lifted, regranted};
ghost use Rattle.judy_tenants.specs.Held.{states_of, quotas_of, words_for, HasCause, HasNoReserve, HasServiceSpace, HasNames, IsReserved, IsSoundService, Keeps};

use crate::accounts::{account_of, no_accounts};
use crate::changing::put_in_force;
use crate::freeing::free_all;
use crate::grants::words_for;
use crate::laws;
use crate::serving::serve;
use crate::stock::{Stock, prepare};
use judy_arena::{Arena, NoMemory};
use judy_bytes::OrderHash;
use judy_directory::Directory;
use judy_model::{Call, Reply, ReplyRoom};
use judy_table::{Speaker, Table, TenantId};
use std::alloc::Global;
use std::marker::Model;
use std::mem::{replace, swap};

/// The tenants of a table, each with its own arrays. All arrays lie in one arena. The spare table takes
/// the rows after another table is read, so that no memory is asked for then.
#[derive(Drop)]
pub struct Service<H: OrderHash> {
    stock: Stock,
    table: Table,
    spare: Table,
    hash: H,
}

impl<H: OrderHash> Model for Service<H> {
    ghost use Rattle.judy_tenants.specs.Held.{Held};
    ghost use Rattle.judy_tenants.specs.Stocks.{held_of, IsGranted, IsStocked};

    ghost Value = { Held };

    ghost view = { λ s. held_of s.table s.stock };

    ghost invariant = { λ s. IsStocked H.hashed s.table s.stock × IsGranted s.table s.stock };
}

impl<H: OrderHash> Service<H> {
    /// A service for the tenants of a table, without entries. Names are hashed with a secret.
    ///
    /// Err: out of memory. The table is dropped.
    pub fn new(alloc: Global, table: Table, secret: &[u8], hash: H) -> Result<Service<H>, NoMemory>
        ensures tenants { IfOk result (λ s. s.tenants ≡ table) }
        ensures states { IfOk result (λ s. (t : ℕ) → states_of s t ≡ no_arrays) }
        ensures refusals { IfOk result (λ s. s.refusals ≡ 0) }
        ensures unplaced { IfOk result (λ s. s.unplaced ≡ 0) }
        ensures names { IfOk result (λ s. s.names ≡ 0) }
        ensures words { IfOk result (λ s. s.words ≡ 0) }
        ensures region { IfOk result (λ s. s.region ≡ 0) }
        ensures reserved { IfOk result (λ s. s.reserved ≡ 0) }
        ensures room { IfOk result (λ s. s.room ≡ 256) }
        ensures granted { IfOk result (λ s. s.granted ≡ words_for table) }
        ensures secret { IfOk result (λ s. s.start ≡ start_of secret.now) }
        ensures sound { IfOk result (λ s. IsSoundService s) }
    {
        laws::kinds_are_lawful();
        table.rows_are_sound();
        let directory = Directory::new(alloc, secret)?;
        let Ok(accounts) = no_accounts(alloc) else {
            return Err(NoMemory);
        };
        let Ok(spare) = Table::empty(alloc) else {
            return Err(NoMemory);
        };
        let stock = Stock {
            arena: Arena::new(alloc),
            directory,
            accounts,
            unplaced: 0,
            granted: words_for(&table),
        };
        let service = Service {
            stock,
            table,
            spare,
            hash,
        };
        service.is_at_all_times();
        Ok(service)
    }

    /// Takes memory from the machine until this many words are taken, and makes room for this many
    /// names. No array changes.
    ///
    /// Err: out of memory. What was taken until then stays.
    pub fn reserve(&mut self, alloc: Global, words: u64, names: usize) -> Result<(), NoMemory>
        ensures same { IsReserved self.old self.new }
        ensures region { OnOk result (words ≤ self.new.region) }
        ensures room { OnOk result (names ≤ self.new.room) }
        ensures refusals { OnOk result (self.new.refusals ≡ self.old.refusals) }
        ensures cause { OnErr result (HasNoReserve words self.old self.new) }
        ensures kept { self.old.region ≤ self.new.region }
        ensures most { self.new.region ≤ max self.old.region (words + 511) }
        ensures names { self.old.room ≤ self.new.room }
        ensures reserved { self.new.reserved ≡ max self.old.reserved self.new.region }
        ensures sound { IsSoundService self.new }
    {
        let done = prepare(alloc, &mut self.stock, words, names);
        self.is_at_all_times();
        done
    }

    /// The tenant and the right for this name and token. None if no tenant has both.
    pub fn login(&self, name: &[u8], token: &[u8]) -> Option<Speaker>
        ensures who { option_map seen result ≡ login_of name.now token.now self.now.tenants }
        ensures digest { IfSome result (λ s. s.digest ≡ sha256 token.now) }
    {
        self.table.login(name, token)
    }

    /// How many places for tenants there are: at most 128. Vacant ones are among them.
    pub fn tenants(&self) -> usize
        ensures { result ≡ length self.now.tenants }
    {
        self.table.len()
    }

    /// The tenant at a place of the table.
    pub fn tenant(&self, place: usize) -> TenantId
        requires { place < length self.now.tenants }
        ensures { result ≡ place }
    {
        self.table.tenant(place)
    }

    /// What holds of the rows of the table. The function is empty: the contract is the law, for
    /// callers to cite.
    pub fn rows_are_sound(&self)
        ensures { AreRows self.now.tenants }
    {
        self.table.rows_are_sound();
    }

    /// A tenant's name.
    pub fn name(&self, tenant: TenantId) -> &[u8]
        requires { tenant < length self.now.tenants }
        ensures { slice_get (map (λ t. t.name) self.now.tenants) tenant ≡ Some result.now }
    {
        self.table.name(tenant)
    }

    /// The tenant with this name.
    pub fn find(&self, name: &[u8]) -> Option<TenantId>
        ensures { result ≡ place_of name.now self.now.tenants }
    {
        self.table.find(name)
    }

    /// Whether the tenant belongs to this service.
    pub fn has(&self, tenant: TenantId) -> bool
        ensures { result ≡ nat_lt tenant (length self.now.tenants) }
    {
        (tenant.place() as usize) < self.table.len()
    }

    /// A tenant's quota of entries.
    pub fn quota(&self, tenant: TenantId) -> u64
        requires { tenant < length self.now.tenants }
        ensures { result ≡ (quotas_of self.now.tenants tenant).entries }
    {
        self.table.quota(tenant).entries
    }

    /// After how many bytes of records since the last snapshot a journal takes no more of a tenant, if it has such
    /// a limit. None for a place without a tenant.
    pub fn journal_limit(&self, tenant: TenantId) -> Option<u64>
        ensures { result ≡ journal_at self.now.tenants tenant }
    {
        self.table.journal_limit(tenant)
    }

    /// A tenant's quota of pieces.
    pub fn most(&self, tenant: TenantId) -> u64
        requires { tenant < length self.now.tenants }
        ensures { result ≡ (quotas_of self.now.tenants tenant).pieces }
    {
        self.table.quota(tenant).pieces
    }

    /// A tenant's number of entries.
    pub fn used(&self, tenant: TenantId) -> u64
        requires { tenant < length self.now.tenants }
        ensures used { result ≡ used (states_of self.now tenant) }
        ensures within { result ≤ (quotas_of self.now.tenants tenant).entries }
    {
        account_of(&self.stock.accounts, tenant).entries
    }

    /// A tenant's number of pieces.
    pub fn pieces(&self, tenant: TenantId) -> u64
        requires { tenant < length self.now.tenants }
        ensures pieces { result ≡ pieces (states_of self.now tenant) }
        ensures within { result ≤ (quotas_of self.now.tenants tenant).pieces }
    {
        account_of(&self.stock.accounts, tenant).pieces
    }

    /// Whether no tenant has this place.
    pub fn is_vacant(&self, tenant: TenantId) -> bool
        requires { tenant < length self.now.tenants }
        ensures { slice_get (map is_vacant self.now.tenants) tenant ≡ Some result }
    {
        self.table.is_vacant(tenant)
    }

    /// Whether the speaker goes on: the speaker's place has a tenant, and the token with which the
    /// speaker logged in gives the speaker's right there.
    pub fn knows(&self, speaker: Speaker) -> bool
        ensures token { result ≡ goes_on self.now.tenants (seen speaker) speaker.digest }
        ensures known { result ≡ true → knows self.now.tenants (seen speaker) ≡ true }
    {
        self.table.knows(speaker)
    }

    /// Puts another table in force. A tenant that stays keeps its place, its arrays and its freeze. The
    /// arrays of one that is gone are freed, and its place becomes vacant. The other tenants of the table take
    /// the places that were vacant before, and then new ones.
    ///
    /// Err: the new quota of this tenant is less than what it holds. Nothing changed.
    pub fn change(&mut self, alloc: Global, table: Table) -> Result<(), TenantId>
        ensures tenants { OnOk result (self.new.tenants ≡ seated self.old.tenants table) }
        ensures changed { OnOk result (HasChanged self.old self.new) }
        ensures refused { OnErr result (self.new ≡ self.old) }
        ensures reason { IfErr result (HasReason self.old (seated self.old.tenants table)) }
        ensures sound { IsSoundService self.new }
    {
        self.spare.seat(&self.table, &table);
        let changed = put_in_force(alloc, &mut self.stock, self.hash, &self.table, &self.spare);
        if changed.is_ok() {
            swap(&mut self.table, &mut self.spare);
        }
        self.is_at_all_times();
        changed
    }

    /// Frees all arrays of the tenants at the marked places. Nothing else changes.
    pub fn free(&mut self, alloc: Global, gone: &[bool])
        requires known { (t : ℕ) → IsTrue (get_or gone.now t false) → t < length self.old.tenants }
        ensures freed { HasFreed gone.now self.old self.new }
        ensures sound { IsSoundService self.new }
    {
        free_all(alloc, &mut self.stock, self.hash, &self.table, gone);
        self.is_at_all_times();
    }

    /// Freezes a tenant. From now on a token with this SHA-256 logs in as this tenant with the right to
    /// change its arrays. Its own token and its old one log in with the right of a frozen tenant, and its
    /// read-only tokens as ever. A second freeze replaces the first. Nothing else changes.
    ///
    /// False: no tenant has the name, and nothing changed.
    pub fn freeze(&mut self, name: &[u8], digest: &[u8; 32]) -> bool
        ensures known { result ≡ has_tenant_of name.now self.old.tenants }
        ensures frozen { self.new ≡ record self.old {
          tenants = with_freeze name.now (Some digest.now) self.old.tenants;
        } }
        ensures sound { IsSoundService self.new }
    {
        let known = self.table.freeze(name, digest);
        self.is_at_all_times();
        known
    }

    /// Thaws a tenant: its tokens log in with the rights that the table gives them. It need not be frozen.
    /// Nothing else changes.
    ///
    /// False: no tenant has the name, and nothing changed.
    pub fn thaw(&mut self, name: &[u8]) -> bool
        ensures known { result ≡ has_tenant_of name.now self.old.tenants }
        ensures thawed { self.new ≡ record self.old {
          tenants = with_freeze name.now None self.old.tenants;
        } }
        ensures sound { IsSoundService self.new }
    {
        let known = self.table.thaw(name);
        self.is_at_all_times();
        known
    }

    /// Gives each tenant the greatest quota, so that each call that was ever admitted has room. Returns
    /// the table with the quotas that they had.
    ///
    /// Err: out of memory. Nothing changed.
    pub fn lift_quotas(&mut self, alloc: Global) -> Result<Table, NoMemory>
        ensures table { IfOk result (λ table. table ≡ self.old.tenants) }
        ensures lifted { OnOk result (self.new ≡ lifted self.old) }
        ensures refused { OnErr result (self.new ≡ self.old) }
        ensures sound { IsSoundService self.new }
    {
        self.table.rows_are_sound();
        let Ok(free) = self.table.unlimited(alloc) else {
            self.is_at_all_times();
            return Err(NoMemory);
        };
        self.stock.granted = self.stock.granted.max(words_for(&free));
        let table = replace(&mut self.table, free);
        self.is_at_all_times();
        Ok(table)
    }

    /// Forgets what the quotas of earlier tables allowed. The words that were live at once count still.
    pub fn forget_grants(&mut self)
        ensures granted { self.new ≡ regranted self.old }
        ensures sound { IsSoundService self.new }
    {
        self.stock.granted = self.stock.arena.peak().max(words_for(&self.table));
        self.is_at_all_times();
    }

    /// Answers a call as if its tenant were alone, with one exception: `Memory`, if a new entry is
    /// within the quota but gets no memory.
    ///
    /// The order of refusals is `ReadOnly` or `Frozen`, by the right, `Full`, `Memory`. After each of
    /// them every array is unchanged. `Memory` has one of two causes: the arena refused a block, or the directory had
    /// no place for the name of an array without entries while as many arrays as it has room for have
    /// entries.
    pub fn call<'a>(
        &mut self,
        alloc: Global,
        speaker: Speaker,
        call: &Call<'_>,
        found: &'a mut ReplyRoom,
    ) -> Reply<'a>
        requires known { speaker.tenant < length self.old.tenants }
        requires string { IsTrue (has_string call.now) }
        ensures tenants { self.new.tenants ≡ self.old.tenants }
        ensures served { IsServed (quotas_of self.old.tenants) (states_of self.old)
            (record { speaker = seen speaker; call = call.now }) result (states_of self.new) }
        ensures cause { HasCause (record { speaker = seen speaker; call = call.now })
            self.old result self.new }
        ensures keeps { Keeps (record { speaker = seen speaker; call = call.now })
            self.old result self.new }
        ensures sound { IsSoundService self.new }
    {
        let reply = serve(
            alloc,
            &mut self.stock,
            self.hash,
            &self.table,
            speaker,
            call,
            found,
        );
        self.is_at_all_times();
        reply
    }

    /// The words in the blocks of all arrays. They are the sum of the words of each array: at most
    /// 16 for each piece, and at least 4 if it has entries.
    pub fn live_words(&self) -> u64
        ensures words { result ≡ self.now.words }
        ensures space { HasServiceSpace self.now }
        ensures names { HasNames self.now }
    {
        self.is_at_all_times();
        self.stock.arena.the_region_is_bounded();
        self.stock.arena.live_words()
    }

    /// What holds of a service at all times: each tenant's arrays are well-formed and within its
    /// quota, the blocks have few words, in total and for each tenant, and 256 names are sure to get a
    /// place. The function is empty: the contract is the law, for callers to cite.
    pub fn is_at_all_times(&self)
        ensures { IsSoundService self.now }
    {
        laws::kinds_are_lawful();
        judy_kinds::laws::places_are_small();
        judy_kinds::laws::contents_are_in_form();
        judy_arena::laws::sizes_add_up_over_the_numbers();
        self.stock.arena.the_region_is_bounded();
        self.stock.directory.there_is_room();
        // The invariant of a service is known once one of its fields is read.
        let _table = &self.table;
    }

    /// How many requests for a block the arena refused. The counter saturates.
    pub fn refusals(&self) -> u64
        ensures { result ≡ self.now.refusals }
    {
        self.stock.arena.refusals()
    }

    /// The words that the arena took from the machine.
    pub fn machine_words(&self) -> u64
        ensures { result ≡ self.now.region }
    {
        self.stock.arena.region()
    }

    /// The greatest number of words that were live at once.
    pub fn peak_words(&self) -> u64
        ensures { result ≡ self.now.peak }
    {
        self.stock.arena.peak()
    }

    /// How many arrays have entries.
    pub fn arrays(&self) -> u64
        ensures { result ≡ self.now.names }
    {
        self.stock.directory.count() as u64
    }

    /// The bytes of the names of these arrays, added up, modulo 2^64.
    pub fn name_bytes(&self) -> u64
        ensures { result ≡ self.now.name_bytes }
    {
        self.stock.directory.bytes()
    }

    /// How many new names the directory had no memory for. The counter saturates.
    pub fn unplaced(&self) -> u64
        ensures { result ≡ self.now.unplaced }
    {
        self.stock.unplaced
    }
}
