//! Laws of the content of a JudySL. Nothing is computed: each law is the contract of an empty
//! function.
ghost use Rattle.judy_string.specs.Laws.{OthersStay, OwnBlocksTell, BlocksAreLive, ContentIsSound, StringsAreKeys, OnlyNothingIsEmpty, NothingChanges, SpaceIsBounded};

/// A change of one array leaves the JudySL arrays that share no block with it as they are.
pub fn others_stay()
    ensures { OthersStay }
{}

/// Two arenas that agree on the blocks of a map agree on its content.
pub fn own_blocks_tell()
    ensures { OwnBlocksTell }
{}

/// The blocks of a map are live and are distinct.
pub fn blocks_are_live()
    ensures { BlocksAreLive }
{}

/// The strings of a map rise strictly, and there are fewer than 2^64 of them. Each is a string that
/// a call may give, and each value is a word.
pub fn content_is_sound()
    ensures { ContentIsSound }
{}

/// The strings that a call may give are those that a map can hold.
pub fn strings_are_keys()
    ensures { StringsAreKeys }
{}

/// A map is empty if and only if its reference is the empty reference.
pub fn only_nothing_is_empty()
    ensures { OnlyNothingIsEmpty }
{}

/// A map stays the same if no block changes.
pub fn nothing_changes()
    ensures { NothingChanges }
{}

/// The blocks of a map have at most 16 words for each piece of its strings, and at least 4 words if
/// it has a string.
pub fn space_is_bounded()
    ensures { SpaceIsBounded }
{}
