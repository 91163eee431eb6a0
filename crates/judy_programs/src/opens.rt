//! What the program needs of a service besides the serving of connections.
ghost use Rattle.std.specs.Prelude.{◌≡◌, ◌⊎◌, ℕ, List, Option, Some, None, IfOk, IfErr, IsFalse, IsTrue, Ok, Err};
ghost use Rattle.judy_table.specs.Tenants.{read_table};
ghost use Rattle.judy_table.specs.declared.tenant.Tenant.{Tenant};
ghost use Rattle.judy_programs.specs.Opening.{IsUnopened};

use judy_protocol::Served;
use judy_table::TableFault;
use std::alloc::Global;

/// Why there is no service.
#[derive(Clone, Copy, Debug, PartialEq, Eq)]
pub enum Unopened {
    /// The table has this fault.
    Table(TableFault),
    /// Out of memory for the service.
    Memory,
}

/// A service that begins with a table of tenants, and that knows how many words its arrays hold.
pub trait Opens: Served {
    /// A new service of these tenants: by the secret with which names are looked up, and by how many
    /// megabytes were taken for its arrays, if any were. No tenant has an entry.
    ghost is_new: { List ℕ → Option ℕ → List Tenant → Self → Type 0 };

    /// The words of all blocks of all arrays.
    ghost words_in: { Self → ℕ };

    /// A new service of the tenants in a table's text. Names of arrays are looked up by a hash that
    /// depends on the secret.
    fn open(alloc: Global, secret: &[u8], text: &[u8]) -> Result<Self, Unopened>
        ensures opened { IfOk result (λ s. (tenants : List Tenant)
            × (read_table text.now ≡ Ok tenants) × is_new secret.now None tenants s) }
        ensures refused { IfErr result (λ why. IsUnopened why text.now) };

    /// This many megabytes could not be taken for the arrays of this service: the machine did not have
    /// that much. It became that one.
    ghost unreserved: { Self → ℕ → Self → Type 0 };

    /// Takes this many megabytes of 1,048,576 bytes for the arrays of a new service. False: out of
    /// memory.
    fn reserve(&mut self, alloc: Global, megabytes: u32) -> bool
        ensures taken { IsTrue result → (secret : List ℕ) (tenants : List Tenant)
            → is_new secret None tenants self.old
            → is_new secret (Some megabytes) tenants self.new }
        ensures refused { IsFalse result → unreserved self.old megabytes self.new };

    /// The words of all blocks of all arrays.
    fn live_words(&self) -> u64
        ensures { result ≡ words_in self.now };
}
