//! Holds what has come of the next line.
ghost use Rattle.std.specs.Prelude.{IsTrue};
ghost use Rattle.judy_protocol.specs.Plain.{is_plain};

use arrayvec::ArrayVec;
use judy_model::LINE_LIMIT;

/// The part of the next line that has come, if it has at most `LINE_LIMIT` bytes.
#[derive(Drop)]
pub struct Held {
    /// The bytes of the line so far.
    pub bytes: ArrayVec<u8, LINE_LIMIT>,
    /// Whether more bytes came than a line may have.
    pub long: bool,
    pub ghost plain: { IsTrue (is_plain bytes.items) },
}

impl Held {
    ghost use Rattle.std.specs.Prelude.{◌≡◌, ◌++◌, [], ℕ, List, true, false};
    ghost use Rattle.judy_protocol.specs.Talks.{HasNoLf, Holds, LineGrows};

    /// Nothing has come.
    pub fn new() -> Held
        ensures { Holds [] result }
    {
        Held {
            bytes: ArrayVec::new(),
            long: false,
        }
    }

    /// Whether nothing has come.
    pub fn is_empty(&self) -> bool
        ensures empty { result ≡ true → Holds [] self.now }
        ensures only { result ≡ true → (rest : List ℕ) → Holds rest self.now → rest ≡ [] }
        ensures some { result ≡ false → Holds [] self.now → ⊥ }
    {
        !self.long && self.bytes.is_empty()
    }

    /// Holds more bytes of the line, or marks it as too long.
    pub fn hold(&mut self, chunk: &[u8])
        requires { HasNoLf chunk.now }
        ensures { LineGrows self.old chunk.now self.new }
    {
        if self.long {
            return;
        }
        if self.bytes.try_extend_from_slice(chunk).is_err() {
            self.long = true;
        }
    }

    /// Begins the next line.
    pub fn clear(&mut self)
        ensures { Holds [] self.new }
    {
        self.bytes.clear();
        self.long = false;
    }
}
