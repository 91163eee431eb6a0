//! The arrays of all tenants in one arena, with each tenant's counts.
ghost use Rattle.std.specs.Prelude.{◌≡◌, ◌<◌, ◌≤◌, ◌^◌, ◌&&◌, IfOk, OnOk, OnErr, IsTrue, IsFalse, not, max, nat_le, ◌+◌};
ghost use Rattle.judy_arena.specs.Blocks.{Blocks};
ghost use Rattle.judy_arena.specs.Takes.{Takes};
ghost use Rattle.judy_directory.specs.Places.{at};
ghost use Rattle.judy_kinds.specs.Kinds.{kind_of_key, IsPlaceOf};
ghost use Rattle.judy_kinds.specs.Calls.{is_of_array, kind_of_call, has_string, asks_at, blocks_of_call};
ghost use Rattle.judy_model.specs.Contents.{max_word};
ghost use Rattle.judy_model.specs.Tenant.{effect_inserts, inserts, long_asks_for_new, long_effect, one_asks_for_new, one_effect};
ghost use Rattle.judy_words.specs.LongArrays.{long_in};
ghost use Rattle.judy_words.specs.OneArrays.{one_in};
ghost use Rattle.judy_tenants.specs.Accounts.{has_room_in};
ghost use Rattle.judy_tenants.specs.States.{IsHeld};
ghost use Rattle.judy_tenants.specs.Stocks.{HasNoReserveIn, IsExchange, IsRefusedIn};

use crate::accounts::{Account, has_room};
use judy_arena::{Arena, NoMemory};
use judy_bytes::OrderHash;
use judy_directory::{Directory, Place, Spot};
use judy_kinds::{answer, asks};
use judy_model::{Call, LongCall, OneCall, Quota, Reply, ReplyRoom};
use std::alloc::Global;

/// All arrays, the directory of their places, each tenant's account, how many new names the
/// directory had no memory for, and the most words that the quotas of a table so far allow to be live
/// at once.
#[derive(Drop)]
pub struct Stock {
    pub arena: Arena,
    pub directory: Directory,
    pub accounts: Vec<Account>,
    pub unplaced: u64,
    pub granted: u64,
}

/// The reply to a call of an array, and the array's place before and after the call.
#[derive(Drop)]
pub struct Answered<'a> {
    pub reply: Reply<'a>,
    pub before: Place,
    pub after: Place,
}

/// Takes memory for `words` words, and for `names` names. No array changes.
///
/// Err: the machine had no memory for a chunk, or for the room.
pub fn prepare(alloc: Global, stock: &mut Stock, words: u64, names: usize) -> Result<(), NoMemory>
    ensures blocks { stock.new.arena.blocks ≡ stock.old.arena.blocks }
    ensures live { stock.new.arena.live ≡ stock.old.arena.live }
    ensures peak { stock.new.arena.peak ≡ stock.old.arena.peak }
    ensures places { stock.new.directory.0 ≡ stock.old.directory.0 }
    ensures start { stock.new.directory.1.start ≡ stock.old.directory.1.start }
    ensures accounts { stock.new.accounts ≡ stock.old.accounts }
    ensures unplaced { stock.new.unplaced ≡ stock.old.unplaced }
    ensures granted { stock.new.granted ≡ stock.old.granted }
    ensures region { OnOk result (words ≤ stock.new.arena.region) }
    ensures room { OnOk result (names ≤ stock.new.directory.1.room) }
    ensures refusals { OnOk result (stock.new.arena.refusals ≡ stock.old.arena.refusals) }
    ensures cause { OnErr result (HasNoReserveIn words stock.old stock.new) }
    ensures kept { stock.old.arena.region ≤ stock.new.arena.region }
    ensures most { stock.new.arena.region ≤ max stock.old.arena.region (words + 511) }
    ensures names { stock.old.directory.1.room ≤ stock.new.directory.1.room }
    ensures reserved { stock.new.arena.reserved
        ≡ max stock.old.arena.reserved stock.new.arena.region }
{
    stock.arena.prepare(alloc, words)?;
    stock.directory.reserve(names)
}

/// The place at a key.
pub fn stands_at(directory: &Directory, spot: &Spot) -> Place
    ensures { result ≡ at directory.now.0 spot.now }
{
    directory.find(spot).unwrap_or(Place::nothing())
}

/// Whether the call asks for a new entry beyond the quota. The array is read only if the quota has
/// no room.
pub fn is_full<H: OrderHash>(
    stock: &Stock,
    hash: H,
    account: Account,
    quota: Quota,
    spot: &Spot,
    call: &Call<'_>,
) -> bool
    requires within { account.pieces ≤ quota.pieces }
    requires string { IsTrue (has_string call.now) }
    requires place { IsPlaceOf H.hashed (kind_of_call call.now) stock.now.arena.blocks
        (at stock.now.directory.0 spot.now) }
    ensures { result ≡ (asks_at stock.now.arena.blocks
        (at stock.now.directory.0 spot.now).root call.now
        && not (has_room_in account quota call.now)) }
{
    judy_kinds::laws::insertions_alone_ask();
    if !call.inserts() {
        return false;
    }
    if has_room(account, quota, call.new_pieces()) {
        return false;
    }
    asks(&stock.arena, hash, &stands_at(&stock.directory, spot), call)
}

/// Answers a call of an array, and writes the array's new place to the directory. The accounts are
/// unchanged.
///
/// Err: out of memory for a new name, or the arena refused a block. All arrays are unchanged.
pub fn exchange<'a, H: OrderHash>(
    alloc: Global,
    stock: &mut Stock,
    hash: H,
    spot: &Spot,
    call: &Call<'_>,
    found: &'a mut ReplyRoom,
) -> Result<Answered<'a>, NoMemory>
    requires held { IsHeld H.hashed stock.old.arena.blocks stock.old.directory.0 }
    requires few { (at stock.old.directory.0 spot.now).pieces < 2 ^ 63 }
    requires array { IsTrue (is_of_array call.now) }
    requires string { IsTrue (has_string call.now) }
    requires kind { kind_of_key spot.now ≡ kind_of_call call.now }
    ensures ok { IfOk result
        (λ answer. IsExchange H.hashed spot.now call.now stock.old stock.new answer) }
    ensures refused { OnErr result (IsRefusedIn spot.now call.now stock.old stock.new) }
    ensures memory { Takes (blocks_of_call stock.old.arena.blocks
        (at stock.old.directory.0 spot.now).root call.now) stock.old.arena stock.new.arena }
{
    if call.inserts() {
        return enter(alloc, stock, hash, spot, call, found);
    }
    look_up(alloc, stock, hash, spot, call, found)
}

/// Answers a call that is no insertion. The directory takes no memory.
fn look_up<'a, H: OrderHash>(
    alloc: Global,
    stock: &mut Stock,
    hash: H,
    spot: &Spot,
    call: &Call<'_>,
    found: &'a mut ReplyRoom,
) -> Result<Answered<'a>, NoMemory>
    requires held { IsHeld H.hashed stock.old.arena.blocks stock.old.directory.0 }
    requires few { (at stock.old.directory.0 spot.now).pieces < 2 ^ 63 }
    requires array { IsTrue (is_of_array call.now) }
    requires string { IsTrue (has_string call.now) }
    requires insertion { IsFalse (inserts call.now) }
    requires kind { kind_of_key spot.now ≡ kind_of_call call.now }
    ensures ok { IfOk result
        (λ answer. IsExchange H.hashed spot.now call.now stock.old stock.new answer) }
    ensures refused { OnErr result (IsRefusedIn spot.now call.now stock.old stock.new) }
    ensures memory { Takes (blocks_of_call stock.old.arena.blocks
        (at stock.old.directory.0 spot.now).root call.now) stock.old.arena stock.new.arena }
{
    judy_kinds::laws::only_nothing_is_empty();
    judy_kinds::laws::insertions_alone_ask();
    let before = stands_at(&stock.directory, spot);
    let (reply, after) = answer(alloc, &mut stock.arena, hash, before, call, found)?;
    if after == before {
        return Ok(Answered {
            reply,
            before,
            after,
        });
    }
    stock.directory.put(spot, after);
    Ok(Answered {
        reply,
        before,
        after,
    })
}

/// A word is at most the greatest one.
fn words_are_small(x: u64)
    ensures { IsTrue (nat_le x max_word) }
{}

/// An insertion into a set that has no index asks for a new one.
fn sets_ask_of_nothing(call: OneCall)
    requires { IsTrue (effect_inserts (one_effect call)) }
    ensures { (b : Blocks) → IsTrue (one_asks_for_new (one_in b 0) call) }
{
    judy_kinds::laws::only_nothing_is_empty();
    if let OneCall::Fill(x) = call {
        words_are_small(x);
    }
}

/// An insertion into a map of words that has no index asks for a new one.
fn maps_ask_of_nothing(call: LongCall)
    requires { IsTrue (effect_inserts (long_effect call)) }
    ensures { (b : Blocks) → IsTrue (long_asks_for_new (long_in b 0) call) }
{
    judy_kinds::laws::only_nothing_is_empty();
    if let LongCall::Fill(x, _) = call {
        words_are_small(x);
    }
}

/// An insertion asks for a new entry of an array that has none.
fn insertions_ask_of_nothing(call: &Call<'_>)
    requires { IsTrue (inserts call.now) }
    ensures { (b : Blocks) → IsTrue (asks_at b 0 call.now) }
{
    judy_kinds::laws::only_nothing_is_empty();
    match call {
        Call::One(_, call) => sets_ask_of_nothing(*call),
        Call::Long(_, call) => maps_ask_of_nothing(*call),
        Call::Str(_, _) => {}
        Call::Bytes(_, _) => {}
        Call::Intersect(..) | Call::Names(..) | Call::Used => {}
    }
}

/// Answers an insertion. A new name gets its place first, and loses it if the arena refuses a
/// block.
fn enter<'a, H: OrderHash>(
    alloc: Global,
    stock: &mut Stock,
    hash: H,
    spot: &Spot,
    call: &Call<'_>,
    found: &'a mut ReplyRoom,
) -> Result<Answered<'a>, NoMemory>
    requires held { IsHeld H.hashed stock.old.arena.blocks stock.old.directory.0 }
    requires few { (at stock.old.directory.0 spot.now).pieces < 2 ^ 63 }
    requires array { IsTrue (is_of_array call.now) }
    requires string { IsTrue (has_string call.now) }
    requires insertion { IsTrue (inserts call.now) }
    requires kind { kind_of_key spot.now ≡ kind_of_call call.now }
    ensures ok { IfOk result
        (λ answer. IsExchange H.hashed spot.now call.now stock.old stock.new answer) }
    ensures refused { OnErr result (IsRefusedIn spot.now call.now stock.old stock.new) }
    ensures memory { Takes (blocks_of_call stock.old.arena.blocks
        (at stock.old.directory.0 spot.now).root call.now) stock.old.arena stock.new.arena }
{
    let Ok(before) = stock.directory.place(spot) else {
        insertions_ask_of_nothing(call);
        stock.unplaced = stock.unplaced.saturating_add(1);
        return Err(NoMemory);
    };
    match answer(alloc, &mut stock.arena, hash, before, call, found) {
        Ok((reply, after)) => {
            stock.directory.put(spot, after);
            Ok(Answered {
                reply,
                before,
                after,
            })
        }
        Err(refused) => {
            stock.directory.put(spot, before);
            Err(refused)
        }
    }
}
