//! Laws of leaves. Nothing is computed: each law is the contract of an empty function.
ghost use Rattle.judy_leaf.specs.Laws.{OthersStay, OwnBlocksTell, BlocksAreLive, ContentIsSound, OnlyNothingIsEmpty, LeavesAreNoBranches, ManyKeysShareBytes, LeavesAreKnown, LeavesAreSpare};

/// A change that lists none of a leaf's block numbers leaves the leaf as it is.
pub fn others_stay()
    ensures { OthersStay }
{}

/// Two arenas that agree on the block of a leaf agree on its entries.
pub fn own_blocks_tell()
    ensures { OwnBlocksTell }
{}

/// A leaf has at most one block, which is live; its number is below 2^32.
pub fn blocks_are_live()
    ensures { BlocksAreLive }
{}

/// The keys of a leaf are words and rise strictly; its values are words, all 0 in a set.
pub fn content_is_sound()
    ensures { ContentIsSound }
{}

/// A leaf is empty if and only if its reference is the empty reference.
pub fn only_nothing_is_empty()
    ensures { OnlyNothingIsEmpty }
{}

/// No reference to a leaf has the kind of a branch.
pub fn leaves_are_no_branches()
    ensures { LeavesAreNoBranches }
{}

/// If a leaf has more than 31 keys, they share all bytes but the last.
pub fn many_keys_share_bytes()
    ensures { ManyKeysShareBytes }
{}

/// A leaf has at most 256 entries for each of its blocks, and at most 4 words for each entry.
pub fn leaves_are_spare()
    ensures { LeavesAreSpare }
{}

/// The word of a leaf is a reference, and each of its blocks has at least 4 words.
pub fn leaves_are_known()
    ensures { LeavesAreKnown }
{}
