//! How much room the file of a segment has, and when the next one is made.
ghost use Rattle.std.specs.Prelude.{◌≡◌, ◌≤◌, true, false};
ghost use Rattle.judy_disk.specs.Rooms.{has_room, is_full, is_half, piece_of, room_after, whole_of};

/// The most bytes that a turn of a client and the commit that is open before it add to a journal. A
/// turn reads at most 4,096 bytes behind a line that is not whole yet. Each of its lines has 7 bytes or
/// more, and its record has 34 more, so that 128 KiB would be enough.
pub const TURN_ROOM: u64 = 1_048_576;

/// The most bytes of zeros that are written behind a file at once.
pub const PIECE: u64 = 1_048_576;

/// How much room a file has.
#[derive(Clone, Copy, Debug, PartialEq, Eq)]
pub struct Room {
    /// Where the next byte is written.
    pub end: u64,
    /// How many bytes the file has. Those behind the end are zeros.
    pub made: u64,
}

impl Room {
    /// How many bytes the file should have: room for a turn behind its limit, or behind its end if it has
    /// passed that.
    pub fn whole(self, limit: u64) -> u64
        ensures { result ≡ whole_of self limit }
    {
        u64::max(limit, self.end).saturating_add(TURN_ROOM)
    }

    /// Whether a turn of a client has room: in the file, and in the next one if the file may pass its
    /// limit. `next` says whether the next one is made.
    pub fn is_enough(self, limit: u64, next: bool) -> bool
        ensures { result ≡ has_room self limit next }
    {
        match self.end.checked_add(TURN_ROOM) {
            Some(after) => after <= self.made && (next || after < limit),
            None => false,
        }
    }

    /// Whether the file is full, so that the next one is begun: it has as many bytes as the limit says.
    pub fn is_full(self, limit: u64) -> bool
        ensures { result ≡ is_full self limit }
    {
        self.end >= limit
    }

    /// Whether the next file is made now: half of this one is used.
    pub fn is_half(self, limit: u64) -> bool
        ensures { result ≡ is_half self limit }
    {
        self.end >= limit / 2
    }

    /// How many bytes of zeros are written at once behind a file that should have this size.
    pub fn piece(self, size: u64) -> u64
        ensures { result ≡ piece_of self size }
    {
        u64::min(size.saturating_sub(self.made), PIECE)
    }

    /// The room after this number of bytes was written.
    pub fn after(self, len: u64) -> Room
        ensures { result ≡ room_after self len }
    {
        let end = self.end.saturating_add(len);
        Room {
            end,
            made: u64::max(self.made, end),
        }
    }
}
