//! Laws of an array of any kind at its place. The functions are empty: each contract is the law.
ghost use Rattle.judy_kinds.specs.Laws.{KeysTellKinds, ArraysAreKept, OnlyNothingIsEmpty, InsertionsAloneAsk, PlacesAreSmall, ContentsAreInForm};

/// The key of the directory gives the kind of its array.
pub fn keys_tell_kinds()
    ensures { KeysTellKinds }
{}

/// The empty reference is a sound array of every kind. An array survives a change that has none of
/// its blocks.
pub fn arrays_are_kept()
    ensures { ArraysAreKept }
{
    judy_tree::laws::only_nothing_is_empty();
    judy_tree::laws::others_stay();
    judy_string::laws::only_nothing_is_empty();
    judy_string::laws::others_stay();
    judy_bytes::laws::only_nothing_is_empty();
    judy_bytes::laws::others_stay();
}

/// An array is empty exactly if its reference is empty.
pub fn only_nothing_is_empty()
    ensures { OnlyNothingIsEmpty }
{
    judy_tree::laws::only_nothing_is_empty();
    judy_string::laws::only_nothing_is_empty();
    judy_bytes::laws::only_nothing_is_empty();
}

/// Only an insertion asks for a new entry.
pub fn insertions_alone_ask()
    ensures { InsertionsAloneAsk }
{}

/// The blocks of an array are live and distinct. They have at most 16 words for each piece, and at
/// least 4 words if there is an entry. Those of a Judy1 or JudyL of n entries have at most 12 n - 8
/// words.
pub fn places_are_small()
    ensures { PlacesAreSmall }
{
    judy_tree::laws::blocks_are_live();
    judy_tree::laws::blocks_are_small();
    judy_tree::laws::blocks_are_few();
    judy_tree::laws::roots_have_space();
    judy_string::laws::blocks_are_live();
    judy_string::laws::space_is_bounded();
    judy_bytes::laws::blocks_are_live();
    judy_bytes::laws::space_is_bounded();
}

/// The keys of every array are strictly increasing, and each of its entries is one of its kind.
pub fn contents_are_in_form()
    ensures { ContentsAreInForm }
{
    judy_tree::laws::content_is_sound();
    judy_string::laws::content_is_sound();
    judy_bytes::laws::content_is_sound();
}
