//! The calls of a tenant, as in the manual pages Judy1(3), JudyL(3), JudySL(3) and JudyHS(3).
ghost use Rattle.std.specs.Prelude.{◌≡◌};
ghost use Rattle.judy_model.specs.Commands.{bytes_operation, command_of, given_operation, long_operation, one_operation, string_operation};
ghost use Rattle.judy_model.specs.Commands.{empty_operation, search_operation};
ghost use Rattle.judy_model.specs.Tenant.{bytes_changes, changes, inserts, is_read_only, long_changes, new_pieces, one_changes, string_changes};
ghost use Rattle.judy_model.specs.Tenant.{value_after, value_replied};
ghost use Rattle.judy_model.specs.Walks.{search_on};

use crate::commands::{Command, Kind, Operation};
use crate::names::{Key, Name};
use crate::quotas::Right;

/// A call of one named array, or of the tenant as a whole. Arrays with one name and different kinds
/// are different arrays. An array that was never written is empty.
#[derive(Debug, PartialEq, Eq, Drop)]
pub enum Call<'a> {
    /// A call of a set of words.
    One(Name, OneCall),
    /// A call of a map from words to words.
    Long(Name, LongCall),
    /// A call of an ordered map from strings to words. Its keys have no byte 0.
    Str(Name, StrCall<'a>),
    /// A call of a map from byte keys to words.
    Bytes(Name, BytesCall<'a>),
    /// The indexes that two sets of words share: from the third argument on, at most as many as the fourth. The
    /// reply also says where the next call goes on.
    Intersect(Name, Name, u64, u16),
    /// The tenant's arrays that have entries, and how many they have, at most this many arrays.
    Names(ArraysFrom, u16),
    /// The tenant's entries and pieces, and its quota of both.
    Used,
}

/// Where a list of a tenant's arrays begins. Arrays are in the order of their kinds, then of their names as
/// bytes.
#[derive(Debug, PartialEq, Eq, Drop)]
pub enum ArraysFrom {
    /// With the first array.
    First,
    /// Behind the array of this kind and name, which may have no entries.
    Behind(Kind, Name),
}

/// The searches in the order of keys. A walk begins with one of them.
#[derive(Clone, Copy, Debug, PartialEq, Eq)]
pub enum Search {
    /// The least key from this one on.
    First,
    /// The least key above this one.
    Next,
    /// The greatest key up to this one.
    Last,
    /// The greatest key below this one.
    Prev,
}

/// A call of a set of words (Judy1(3)). A search answers the index that it finds, or that there is
/// none. A walk answers as many entries as fit into a reply, at most its last argument: what the search
/// finds, and each time what follows it in the same direction.
#[derive(Clone, Copy, Debug, PartialEq, Eq)]
pub enum OneCall {
    /// Inserts the index. The reply says whether it was new.
    Set(u64),
    /// Removes the index. The reply says whether it was present.
    Unset(u64),
    /// Removes the least index that is at least the first argument, if it is at most the second. The reply is
    /// that index, or that there is none.
    Pop(u64, u64),
    /// Adds the least index from this one on that is absent. The reply is that index, or that there is none.
    Fill(u64),
    /// Removes the least indexes from the first argument to the second, inclusive: at most as many as the third.
    /// The reply is how many it removed.
    Cut(u64, u64, u16),
    /// Whether the index is in the set.
    Test(u64),
    /// The number of indexes in the set from the first argument to the second, inclusive.
    Count(u64, u64),
    /// The index with this rank. The least index has rank 1.
    ByCount(u64),
    /// The least index in the set that is at least this one.
    First(u64),
    /// The least index in the set above this one.
    Next(u64),
    /// The greatest index in the set that is at most this one.
    Last(u64),
    /// The greatest index in the set below this one.
    Prev(u64),
    /// The least absent index that is at least this one.
    FirstEmpty(u64),
    /// The least absent index above this one.
    NextEmpty(u64),
    /// The greatest absent index that is at most this one.
    LastEmpty(u64),
    /// The greatest absent index below this one.
    PrevEmpty(u64),
    /// A walk over the indexes in the set.
    Walk(Search, u64, u16),
    /// A walk over the absent indexes.
    WalkEmpty(Search, u64, u16),
    /// Removes all indexes. The reply is how many there were.
    Free,
}

/// What an insertion does to the value of its entry. The Judy library has no additions.
#[derive(Clone, Copy, Debug, PartialEq, Eq)]
pub enum Given {
    /// A present entry keeps its value. A new one gets 0.
    Nothing,
    /// The entry gets this value.
    Value(u64),
    /// The entry gets its value plus this number, modulo 2^64. A new one counts as 0.
    Plus(u64),
}

/// A call of a map from words to words (JudyL(3)). A search for a present index answers its value
/// too.
#[derive(Clone, Copy, Debug, PartialEq, Eq)]
pub enum LongCall {
    /// Inserts the index. The reply is the value before, 0 if the index is new. After an addition
    /// it is the new value.
    Insert(u64, Given),
    /// Keeps the value of a present index, and inserts an absent one with this value. The reply is the
    /// value that stays, or that the index was absent.
    Keep(u64, u64),
    /// Gives a present index the second value if it has the first. The reply is the value before, or that
    /// the index is absent.
    Exchange(u64, u64, u64),
    /// Removes the index. The reply says whether it was present.
    Delete(u64),
    /// Removes the index if it has this value. The reply says whether it had.
    DeleteIf(u64, u64),
    /// Removes the index. The reply is its value, or that it was absent.
    Take(u64),
    /// Removes the least index that is at least the first argument, if it is at most the second. The reply is
    /// its value and that index, or that there is none.
    Pop(u64, u64),
    /// Inserts the least index from the first argument on that is absent, with the value of the second. The reply
    /// is that index, or that there is none.
    Fill(u64, u64),
    /// Removes the least indexes from the first argument to the second, inclusive: at most as many as the third.
    /// The reply is how many it removed.
    Cut(u64, u64, u16),
    /// The value of the index.
    Get(u64),
    /// The number of indexes in the map from the first argument to the second, inclusive.
    Count(u64, u64),
    /// The index with this rank. The least index has rank 1.
    ByCount(u64),
    /// The least index in the map that is at least this one.
    First(u64),
    /// The least index in the map above this one.
    Next(u64),
    /// The greatest index in the map that is at most this one.
    Last(u64),
    /// The greatest index in the map below this one.
    Prev(u64),
    /// The least absent index that is at least this one.
    FirstEmpty(u64),
    /// The least absent index above this one.
    NextEmpty(u64),
    /// The greatest absent index that is at most this one.
    LastEmpty(u64),
    /// The greatest absent index below this one.
    PrevEmpty(u64),
    /// A walk over the indexes in the map, each with its value.
    Walk(Search, u64, u16),
    /// A walk over the absent indexes.
    WalkEmpty(Search, u64, u16),
    /// Removes all indexes. The reply is how many there were.
    Free,
}

/// A call of an ordered map from strings to words (JudySL(3)). Strings compare byte by byte as
/// unsigned numbers; a proper prefix comes first. A search answers the string that it finds and its
/// value.
#[derive(Debug, PartialEq, Eq, Drop)]
pub enum StrCall<'a> {
    /// Inserts the string, as `LongCall::Insert` does an index.
    Insert(Key<'a>, Given),
    /// As `LongCall::Keep` does an index.
    Keep(Key<'a>, u64),
    /// As `LongCall::Exchange` does an index.
    Exchange(Key<'a>, u64, u64),
    /// Removes the string. The reply says whether it was present.
    Delete(Key<'a>),
    /// Removes the string if it has this value. The reply says whether it had.
    DeleteIf(Key<'a>, u64),
    /// Removes the string. The reply is its value, or that it was absent.
    Take(Key<'a>),
    /// Removes the least string that is at least this one. The reply is its value and that string, or that there
    /// is none.
    Pop(Key<'a>),
    /// The value of the string.
    Get(Key<'a>),
    /// The least string in the map that is at least this one.
    First(Key<'a>),
    /// The least string in the map above this one.
    Next(Key<'a>),
    /// The greatest string in the map that is at most this one.
    Last(Key<'a>),
    /// The greatest string in the map below this one.
    Prev(Key<'a>),
    /// A walk over the strings in the map, each with its value.
    Walk(Search, Key<'a>, u16),
    /// Removes all strings. The reply is how many there were.
    Free,
}

/// A call of a map from byte keys to words (JudyHS(3)). Only walks have an order: that of the first 8 bytes of
/// the keys' SHA-256 (FIPS 180-4), then that of the keys as strings.
#[derive(Debug, PartialEq, Eq, Drop)]
pub enum BytesCall<'a> {
    /// Inserts the key, as `LongCall::Insert` does an index.
    Insert(Key<'a>, Given),
    /// As `LongCall::Keep` does an index.
    Keep(Key<'a>, u64),
    /// As `LongCall::Exchange` does an index.
    Exchange(Key<'a>, u64, u64),
    /// Removes the key. The reply says whether it was present.
    Delete(Key<'a>),
    /// Removes the key if it has this value. The reply says whether it had.
    DeleteIf(Key<'a>, u64),
    /// Removes the key. The reply is its value, or that it was absent.
    Take(Key<'a>),
    /// The value of the key.
    Get(Key<'a>),
    /// The first keys of a walk, each with its value, at most this many.
    First(u16),
    /// The keys behind this one in a walk, each with its value, at most this many.
    Next(Key<'a>, u16),
    /// Removes all keys. The reply is how many there were.
    Free,
}

impl<'a> Call<'a> {
    /// The command that makes the call. None for `USED` and `NAMES`, which ask for no array.
    pub fn command(&self) -> Option<Command>
        ensures { result ≡ command_of self.now }
    {
        let (kind, operation) = match self {
            Call::One(_, call) => (Kind::One, call.operation()),
            Call::Long(_, call) => (Kind::Long, call.operation()),
            Call::Str(_, call) => (Kind::Str, call.operation()),
            Call::Bytes(_, call) => (Kind::Bytes, call.operation()),
            Call::Intersect(..) => (Kind::One, Operation::Intersect),
            Call::Names(..) | Call::Used => return None,
        };
        Some(Command { kind, operation })
    }

    /// Whether the call may change an array.
    pub fn changes(&self) -> bool
        ensures { result ≡ changes self.now }
    {
        match self {
            Call::One(_, call) => call.changes(),
            Call::Long(_, call) => call.changes(),
            Call::Str(_, call) => call.changes(),
            Call::Bytes(_, call) => call.changes(),
            Call::Intersect(..) | Call::Names(..) | Call::Used => false,
        }
    }

    /// Whether the call may insert an entry.
    pub fn inserts(&self) -> bool
        ensures { result ≡ inserts self.now }
    {
        match self {
            Call::One(_, call) => matches!(call, OneCall::Set(_) | OneCall::Fill(_)),
            Call::Long(_, call) => {
                matches!(
                    call,
                    LongCall::Insert(..) | LongCall::Keep(..) | LongCall::Fill(..)
                )
            }
            Call::Str(_, call) => matches!(call, StrCall::Insert(..) | StrCall::Keep(..)),
            Call::Bytes(_, call) => matches!(call, BytesCall::Insert(..) | BytesCall::Keep(..)),
            Call::Intersect(..) | Call::Names(..) | Call::Used => false,
        }
    }

    /// Whether the right forbids the call.
    pub fn is_read_only(&self, right: Right) -> bool
        ensures { result ≡ is_read_only right self.now }
    {
        match right {
            Right::Change => false,
            Right::Look | Right::Frozen => self.changes(),
        }
    }

    /// The pieces of the entry that the call would insert; 0 if it inserts none.
    pub fn new_pieces(&self) -> u64
        ensures { result ≡ new_pieces self.now }
    {
        match self {
            Call::One(_, OneCall::Set(_))
            | Call::One(_, OneCall::Fill(_))
            | Call::Long(_, LongCall::Insert(..))
            | Call::Long(_, LongCall::Keep(..))
            | Call::Long(_, LongCall::Fill(..)) => 1,
            Call::Str(_, StrCall::Insert(key, _))
            | Call::Str(_, StrCall::Keep(key, _))
            | Call::Bytes(_, BytesCall::Insert(key, _))
            | Call::Bytes(_, BytesCall::Keep(key, _)) => key.pieces(),
            _ => 0,
        }
    }
}

impl Given {
    /// What an insertion with it does.
    pub fn operation(self) -> Operation
        ensures { result ≡ given_operation self }
    {
        match self {
            Given::Nothing | Given::Value(_) => Operation::Insert,
            Given::Plus(_) => Operation::Add,
        }
    }

    /// The value of the entry afterwards, by its value before. A new entry counts as 0.
    pub fn value_after(self, before: u64) -> u64
        ensures { result ≡ value_after self before }
    {
        match self {
            Given::Nothing => before,
            Given::Value(value) => value,
            Given::Plus(number) => before.wrapping_add(number),
        }
    }

    /// The value that the reply shows, by the value of the entry before.
    pub fn value_replied(self, before: u64) -> u64
        ensures { result ≡ value_replied self before }
    {
        match self {
            Given::Nothing | Given::Value(_) => before,
            Given::Plus(_) => self.value_after(before),
        }
    }
}

impl Search {
    /// The search that goes on behind the key that this one found.
    pub fn on(self) -> Search
        ensures { result ≡ search_on self }
    {
        match self {
            Search::First | Search::Next => Search::Next,
            Search::Last | Search::Prev => Search::Prev,
        }
    }

    /// What a walk over entries does, by the search that it begins with.
    pub fn operation(self) -> Operation
        ensures { result ≡ search_operation self }
    {
        match self {
            Search::First => Operation::First,
            Search::Next => Operation::Next,
            Search::Last => Operation::Last,
            Search::Prev => Operation::Prev,
        }
    }

    /// What a walk over absent words does.
    pub fn empty_operation(self) -> Operation
        ensures { result ≡ empty_operation self }
    {
        match self {
            Search::First => Operation::FirstEmpty,
            Search::Next => Operation::NextEmpty,
            Search::Last => Operation::LastEmpty,
            Search::Prev => Operation::PrevEmpty,
        }
    }
}

impl OneCall {
    /// What the call does to the set.
    pub fn operation(&self) -> Operation
        ensures { result ≡ one_operation self.now }
    {
        match self {
            OneCall::Set(_) => Operation::Insert,
            OneCall::Unset(_) => Operation::Remove,
            OneCall::Pop(..) => Operation::Pop,
            OneCall::Fill(_) => Operation::Fill,
            OneCall::Cut(..) => Operation::Cut,
            OneCall::Test(_) => Operation::Look,
            OneCall::Count(_, _) => Operation::Count,
            OneCall::ByCount(_) => Operation::Nth,
            OneCall::First(_) => Operation::First,
            OneCall::Next(_) => Operation::Next,
            OneCall::Last(_) => Operation::Last,
            OneCall::Prev(_) => Operation::Prev,
            OneCall::FirstEmpty(_) => Operation::FirstEmpty,
            OneCall::NextEmpty(_) => Operation::NextEmpty,
            OneCall::LastEmpty(_) => Operation::LastEmpty,
            OneCall::PrevEmpty(_) => Operation::PrevEmpty,
            OneCall::Walk(search, _, _) => search.operation(),
            OneCall::WalkEmpty(search, _, _) => search.empty_operation(),
            OneCall::Free => Operation::Free,
        }
    }

    /// Whether the call may change the set.
    pub fn changes(&self) -> bool
        ensures { result ≡ one_changes self.now }
    {
        matches!(
            self,
            OneCall::Set(_)
                | OneCall::Unset(_)
                | OneCall::Pop(..)
                | OneCall::Fill(_)
                | OneCall::Cut(..)
                | OneCall::Free
        )
    }
}

impl LongCall {
    /// What the call does to the map.
    pub fn operation(&self) -> Operation
        ensures { result ≡ long_operation self.now }
    {
        match self {
            LongCall::Insert(_, given) => given.operation(),
            LongCall::Keep(..) => Operation::Keep,
            LongCall::Exchange(..) => Operation::Exchange,
            LongCall::Delete(_) | LongCall::DeleteIf(..) => Operation::Remove,
            LongCall::Take(_) => Operation::Take,
            LongCall::Pop(..) => Operation::Pop,
            LongCall::Fill(..) => Operation::Fill,
            LongCall::Cut(..) => Operation::Cut,
            LongCall::Get(_) => Operation::Look,
            LongCall::Count(_, _) => Operation::Count,
            LongCall::ByCount(_) => Operation::Nth,
            LongCall::First(_) => Operation::First,
            LongCall::Next(_) => Operation::Next,
            LongCall::Last(_) => Operation::Last,
            LongCall::Prev(_) => Operation::Prev,
            LongCall::FirstEmpty(_) => Operation::FirstEmpty,
            LongCall::NextEmpty(_) => Operation::NextEmpty,
            LongCall::LastEmpty(_) => Operation::LastEmpty,
            LongCall::PrevEmpty(_) => Operation::PrevEmpty,
            LongCall::Walk(search, _, _) => search.operation(),
            LongCall::WalkEmpty(search, _, _) => search.empty_operation(),
            LongCall::Free => Operation::Free,
        }
    }

    /// Whether the call may change the map.
    pub fn changes(&self) -> bool
        ensures { result ≡ long_changes self.now }
    {
        matches!(
            self,
            LongCall::Insert(..)
                | LongCall::Keep(..)
                | LongCall::Exchange(..)
                | LongCall::Delete(_)
                | LongCall::DeleteIf(..)
                | LongCall::Take(_)
                | LongCall::Pop(..)
                | LongCall::Fill(..)
                | LongCall::Cut(..)
                | LongCall::Free
        )
    }
}

impl<'a> StrCall<'a> {
    /// What the call does to the map.
    pub fn operation(&self) -> Operation
        ensures { result ≡ string_operation self.now }
    {
        match self {
            StrCall::Insert(_, given) => given.operation(),
            StrCall::Keep(..) => Operation::Keep,
            StrCall::Exchange(..) => Operation::Exchange,
            StrCall::Delete(_) | StrCall::DeleteIf(..) => Operation::Remove,
            StrCall::Take(_) => Operation::Take,
            StrCall::Pop(_) => Operation::Pop,
            StrCall::Get(_) => Operation::Look,
            StrCall::First(_) => Operation::First,
            StrCall::Next(_) => Operation::Next,
            StrCall::Last(_) => Operation::Last,
            StrCall::Prev(_) => Operation::Prev,
            StrCall::Walk(search, _, _) => search.operation(),
            StrCall::Free => Operation::Free,
        }
    }

    /// Whether the call may change the map.
    pub fn changes(&self) -> bool
        ensures { result ≡ string_changes self.now }
    {
        matches!(
            self,
            StrCall::Insert(..)
                | StrCall::Keep(..)
                | StrCall::Exchange(..)
                | StrCall::Delete(_)
                | StrCall::DeleteIf(..)
                | StrCall::Take(_)
                | StrCall::Pop(_)
                | StrCall::Free
        )
    }
}

impl<'a> BytesCall<'a> {
    /// What the call does to the map.
    pub fn operation(&self) -> Operation
        ensures { result ≡ bytes_operation self.now }
    {
        match self {
            BytesCall::Insert(_, given) => given.operation(),
            BytesCall::Keep(..) => Operation::Keep,
            BytesCall::Exchange(..) => Operation::Exchange,
            BytesCall::Delete(_) | BytesCall::DeleteIf(..) => Operation::Remove,
            BytesCall::Take(_) => Operation::Take,
            BytesCall::Get(_) => Operation::Look,
            BytesCall::First(_) => Operation::First,
            BytesCall::Next(..) => Operation::Next,
            BytesCall::Free => Operation::Free,
        }
    }

    /// Whether the call may change the map.
    pub fn changes(&self) -> bool
        ensures { result ≡ bytes_changes self.now }
    {
        matches!(
            self,
            BytesCall::Insert(..)
                | BytesCall::Keep(..)
                | BytesCall::Exchange(..)
                | BytesCall::Delete(_)
                | BytesCall::DeleteIf(..)
                | BytesCall::Take(_)
                | BytesCall::Free
        )
    }
}
