//! Laws of the content of a JudyHS, for every hash. Nothing is computed: each law is the contract
//! of an empty function.
ghost use Rattle.judy_bytes.specs.Laws.{OthersStay, OwnBlocksTell, BlocksAreLive, ContentIsSound, OnlyNothingIsEmpty, NothingChanges, SpaceIsBounded};

/// A change of one map leaves the others as they are.
pub fn others_stay()
    ensures { OthersStay }
{}

/// Two arenas that agree on the blocks of a map agree on its content.
pub fn own_blocks_tell()
    ensures { OwnBlocksTell }
{}

/// The blocks of a map are live and are distinct.
pub fn blocks_are_live()
    ensures { BlocksAreLive }
{}

/// The keys of a map rise strictly and have at most 1,000 bytes. There are fewer than 2^64 entries,
/// and each value is a word.
pub fn content_is_sound()
    ensures { ContentIsSound }
{}

/// A map is empty if and only if its reference is the empty reference.
pub fn only_nothing_is_empty()
    ensures { OnlyNothingIsEmpty }
{}

/// A map stays the same if no block changes.
pub fn nothing_changes()
    ensures { NothingChanges }
{}

/// The blocks of a map have at most 16 words for each piece of its keys, and at least 4 words if it
/// has a key.
pub fn space_is_bounded()
    ensures { SpaceIsBounded }
{}
