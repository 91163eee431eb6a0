//! How many bytes of records each tenant has in the segments of a journal.
ghost use Rattle.std.specs.Prelude.{◌≡◌, ◌+◌, ◌^◌, ◌-◌, ℕ, Bool, List, [], ◌++◌, ◌∷◌, IfSome, IsSomeAnd, None, Some, nat_lt, min, slice_get, true};
ghost use Rattle.std.specs.List.{filter};
ghost use Rattle.std.specs.Str.{bytes_eq};
ghost use Rattle.judy_model.specs.Stream.{lines_of};
ghost use Rattle.judy_disk.specs.Spending.{bytes_if, first_word, line_bytes, shares_of, spent_by, spent_in};

use bstr::ByteSlice;
use judy_model::Name;
use judy_protocol::cut_line;
use std::alloc::Global;

/// The bytes of a tenant's records in a segment.
#[derive(Drop)]
pub struct Share {
    /// The number of the segment.
    pub segment: u64,
    /// The tenant.
    pub tenant: Name,
    /// The bytes, with their line feeds.
    pub bytes: u64,
}

/// How many bytes of records each tenant has in the segments of a journal. Memory is taken for the first
/// record of a tenant in a segment alone.
#[derive(Drop)]
pub struct Spent {
    /// Those of a segment stand behind those of the segments before it.
    shares: Vec<Share>,
}

/// What comes before the first space of a line.
fn first_word(line: &[u8]) -> &[u8]
    ensures { result.now ≡ first_word line.now }
{
    match line.find_byte(b' ') {
        Some(at) => line.split_at(at).0,
        None => line,
    }
}

/// Whether a share is that of a tenant in a segment.
fn is_of(share: &Share, segment: u64, tenant: &Name) -> bool
    ensures segment { result ≡ true → share.now.segment ≡ segment }
    ensures tenant { result ≡ true → share.now.tenant ≡ tenant.now }
{
    share.segment == segment && share.tenant == *tenant
}

impl Spent {
    /// No records yet.
    pub fn new(alloc: Global) -> Spent
        ensures { shares_of result ≡ [] }
    {
        Spent {
            shares: Vec::new(alloc),
        }
    }

    /// The bytes by tenant and segment.
    pub fn shares(&self) -> &[Share]
        ensures { result.now ≡ shares_of self.now }
    {
        self.shares.as_slice()
    }

    /// The place of the share that a tenant has in the last segment, if it is this one.
    fn find(&self, segment: u64, tenant: &Name) -> Option<usize>
        ensures { IfSome result (λ place. IsSomeAnd (slice_get (shares_of self.now) place)
            (λ s. (s.segment ≡ segment) × (s.tenant ≡ tenant.now))) }
    {
        let shares = self.shares.as_slice();
        for behind in 0..shares.len() {
            let place = shares.len() - 1 - behind;
            if is_of(&shares[place], segment, tenant) {
                return Some(place);
            }
            if shares[place].segment != segment {
                return None;
            }
        }
        None
    }

    /// Adds bytes of a tenant in a segment. False if there is no memory for them, or no number.
    pub fn add(&mut self, segment: u64, tenant: Name, bytes: u64) -> bool
        ensures { result ≡ true → (chosen : ℕ → List ℕ → Bool) → spent_by chosen (shares_of self.new)
            ≡ spent_by chosen (shares_of self.old) + bytes_if (chosen segment tenant) bytes }
    {
        let Some(place) = self.find(segment, &tenant) else {
            let share = Share {
                segment,
                tenant,
                bytes,
            };
            return self.shares.push(share).is_ok();
        };
        match self.shares[place].bytes.checked_add(bytes) {
            Some(sum) => {
                self.shares[place].bytes = sum;
                true
            }
            None => false,
        }
    }

    /// Adds the bytes of a line, with its line feed, for the tenant whose name it begins with, if it begins
    /// with one.
    fn add_line(&mut self, segment: u64, line: &[u8]) -> bool
        ensures { result ≡ true → (chosen : ℕ → List ℕ → Bool) → spent_by chosen (shares_of self.new)
            ≡ spent_by chosen (shares_of self.old) + line_bytes chosen segment line.now }
    {
        match Name::read(first_word(line)) {
            Some(tenant) => self.add(segment, tenant, line.len() as u64 + 1),
            None => true,
        }
    }

    /// Adds the records of a text, each with its line feed, for the tenants that they name. A line that names
    /// none counts for nobody. False if there is no memory for one of them.
    pub fn count(&mut self, segment: u64, text: &[u8]) -> bool
        ensures { result ≡ true → (chosen : ℕ → List ℕ → Bool) → spent_by chosen (shares_of self.new)
            ≡ spent_by chosen (shares_of self.old) + spent_in chosen segment (lines_of text.now) }
    {
        let mut rest = text;
        while let Some((line, after)) = cut_line(rest) {
            if !self.add_line(segment, line) {
                return false;
            }
            rest = after;
        }
        true
    }

    /// How many bytes a tenant has in all segments.
    pub fn of(&self, tenant: &[u8]) -> u64
        ensures { result ≡ min (spent_by (λ _ name. bytes_eq name tenant.now) (shares_of self.now)) (2 ^ 64 - 1) }
    {
        let mut sum = 0;
        for share in self.shares.as_slice() {
            if share.tenant.as_bytes() == tenant {
                sum = u64::saturating_add(sum, share.bytes);
            }
        }
        sum
    }

    /// Whether a tenant may add more: it has fewer bytes than its limit, if it has one.
    pub fn may_add(&self, tenant: &[u8], limit: Option<u64>) -> bool
        ensures none { limit ≡ None → result ≡ true }
        ensures some { (most : ℕ) → limit ≡ Some most
            → result ≡ nat_lt (min (spent_by (λ _ name. bytes_eq name tenant.now) (shares_of self.now)) (2 ^ 64 - 1))
            most }
    {
        match limit {
            Some(limit) => self.of(tenant) < limit,
            None => true,
        }
    }

    /// Forgets the segments up to this one, for which a snapshot stands.
    pub fn forget(&mut self, upto: u64)
        ensures { shares_of self.new ≡ filter (λ s. nat_lt upto s.segment) (shares_of self.old) }
    {
        self.shares.retain(|share| share.segment > upto);
    }
}
