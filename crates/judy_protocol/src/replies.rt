//! Writes the line of a reply.
ghost use Rattle.std.specs.Prelude.{◌≡◌, ◌≤◌, ◌+◌, ◌*◌, ◌++◌, length, []};
ghost use Rattle.hex.specs.Hex.{encode_lower};
ghost use Rattle.judy_model.specs.Replies.{text as text_of, with_number, reply_words};

use crate::limits::REPLY_LIMIT;
use arrayvec::ArrayVec;
use judy_model::{KEY_LIMIT, Key, Reply, SPACED_LIMIT, spaced};

/// Adds bytes to the line.
fn put(line: &mut ArrayVec<u8, REPLY_LIMIT>, bytes: &[u8])
    requires { length line.old.items + length bytes.now ≤ REPLY_LIMIT }
    ensures { line.new.items ≡ line.old.items ++ bytes.now }
{
    let _fits = line.try_extend_from_slice(bytes);
}

/// Adds a space and a number.
fn put_number(line: &mut ArrayVec<u8, REPLY_LIMIT>, n: u64)
    requires { length line.old.items + 21 ≤ REPLY_LIMIT }
    ensures text { line.new.items ≡ with_number line.old.items n }
    ensures short { length line.new.items ≤ length line.old.items + 21 }
{
    let mut digits = [0; SPACED_LIMIT];
    put(line, spaced(n, &mut digits));
}

/// Adds a space and a number of entries.
fn put_count(line: &mut ArrayVec<u8, REPLY_LIMIT>, n: u16)
    requires { length line.old.items + 21 ≤ REPLY_LIMIT }
    ensures text { line.new.items ≡ with_number line.old.items n }
    ensures short { length line.new.items ≤ length line.old.items + 6 }
{
    put_number(line, n as u64);
}

/// Adds the bytes of a key as pairs of lower-case hexadecimal digits.
fn put_key(line: &mut ArrayVec<u8, REPLY_LIMIT>, key: &Key<'_>)
    requires { length line.old.items + 2 * KEY_LIMIT ≤ REPLY_LIMIT }
    ensures text { line.new.items ≡ line.old.items ++ encode_lower key.now }
    ensures short { length line.new.items ≤ length line.old.items + 2 * KEY_LIMIT }
{
    let bytes = key.as_bytes();
    let len = 2 * bytes.len();
    let mut digits = [0u8; 2 * KEY_LIMIT];
    let _fits = hex::encode_to_slice(bytes, &mut digits[..len]);
    put(line, &digits[..len]);
}

/// Writes the words of a reply into an empty line.
fn put_words(line: &mut ArrayVec<u8, REPLY_LIMIT>, reply: &Reply<'_>)
    requires { line.old.items ≡ [] }
    ensures text { line.new.items ≡ reply_words reply.now }
    ensures short { length line.new.items + 1 ≤ REPLY_LIMIT }
{
    match reply {
        Reply::Int(true) => put(line, b"1"),
        Reply::Int(false) => put(line, b"0"),
        Reply::Index(i) => {
            put(line, b"1");
            put_number(line, *i);
        }
        Reply::Count(k) => {
            put(line, b"N");
            put_number(line, *k);
        }
        Reply::Value(v) => {
            put(line, b"V");
            put_number(line, *v);
        }
        Reply::ValueAt(v, i) => {
            put(line, b"V");
            put_number(line, *v);
            put_number(line, *i);
        }
        Reply::ValueKey(v, key) => {
            put(line, b"V");
            put_number(line, *v);
            put(line, b" x");
            put_key(line, key);
        }
        Reply::Entries(count, text) => {
            put(line, b"E");
            put_count(line, *count);
            put(line, text.as_bytes());
        }
        Reply::Intersection(next, count, text) => {
            put(line, b"I");
            put_number(line, *next);
            put_count(line, *count);
            put(line, text.as_bytes());
        }
        Reply::Null => put(line, b"NULL"),
        Reply::Used(used, quota, pieces, most) => {
            put(line, b"Q");
            put_number(line, *used);
            put_number(line, *quota);
            put_number(line, *pieces);
            put_number(line, *most);
        }
        Reply::ReadOnly => put(line, b"ERR READONLY"),
        Reply::Frozen => put(line, b"ERR FROZEN"),
        Reply::Full => put(line, b"FULL"),
        Reply::Memory => put(line, b"ERR MEMORY"),
    }
}

/// Writes the line of a reply, with its LF. It replaces the contents of the buffer.
pub fn write_reply(reply: &Reply<'_>, line: &mut ArrayVec<u8, REPLY_LIMIT>)
    ensures { line.new.items ≡ text_of reply.now }
{
    line.clear();
    put_words(line, reply);
    put(line, b"\n");
}
