//! A line in its short spelling.
ghost use Rattle.std.specs.Prelude.{◌≡◌, ◌≤◌, ◌+◌, ◌++◌, ◌∷◌, length};
ghost use Rattle.judy_model.specs.Reading.{request_of};
ghost use Rattle.judy_model.specs.declared.requests.TheConstants.{LINE_LIMIT as line_limit};
ghost use Rattle.judy_protocol.specs.Plain.{short_line};
ghost use Rattle.judy_protocol.specs.Talks.{HasNoLf};

use crate::fields::next_field;
use arrayvec::ArrayVec;
use judy_model::LINE_LIMIT;

/// Puts bytes behind others.
fn put(room: &mut ArrayVec<u8, LINE_LIMIT>, bytes: &[u8])
    requires { length room.old.items + length bytes.now ≤ line_limit }
    ensures { room.new.items ≡ room.old.items ++ bytes.now }
{
    let _fits = room.try_extend_from_slice(bytes);
}

/// Puts a field behind others, after a space.
fn put_next(room: &mut ArrayVec<u8, LINE_LIMIT>, field: &[u8])
    requires { length room.old.items + 1 + length field.now ≤ line_limit }
    ensures { room.new.items ≡ room.old.items ++ 32 ∷ field.now }
{
    put(room, b" ");
    put(room, field);
}

/// Puts the line into `room` with one space between its fields and none around them. It spells the
/// same request.
pub fn squeeze(line: &[u8], room: &mut ArrayVec<u8, LINE_LIMIT>)
    requires fits { length line.now ≤ line_limit }
    ensures short { room.new.items ≡ short_line line.now }
    ensures same { request_of room.new.items ≡ request_of line.now }
    ensures fits { length room.new.items ≤ length line.now }
    ensures plain { HasNoLf line.now → HasNoLf room.new.items }
{
    room.clear();
    let Some((field, mut rest)) = next_field(line) else {
        return;
    };
    put(room, field);
    while let Some((field, after)) = next_field(rest) {
        put_next(room, field);
        rest = after;
    }
}
