//! The list of opens of a host over memory, in memory that was reserved before.

ghost use Rattle.std.specs.Prelude.{◌≡◌, ◌+◌, ◌-◌, ◌≤◌, ◌++◌, [], ◌∷◌, length, min, take, vec_len, vec_capacity, nat_lt, if◌then◌else◌};
ghost use Rattle.tests_host.specs.Opens.{opened_by, opens_named, names_len};

/// What was to be opened; an output with its overwrite.
#[derive(Clone, Copy)]
pub(crate) enum EntryKind {
    Input,
    Output(bool),
}

/// An open that was asked for, by the length of its name: the names stand one after the other.
#[derive(Clone, Copy)]
pub(crate) struct Entry {
    kind: EntryKind,
    len: usize,
}

/// Adds bytes for which there is room.
fn add_within(list: &mut Vec<u8>, bytes: &[u8])
    requires { vec_len list.old + length bytes.now ≤ vec_capacity list.old }
    ensures items { list.new.items ≡ list.old.items ++ bytes.now }
    ensures len { vec_len list.new ≡ vec_len list.old + length bytes.now }
    ensures capacity { vec_capacity list.old ≤ vec_capacity list.new }
{
    let _ = list.extend_from_slice(bytes);
}

/// Lists an open, where there is room for its name and one more, and says whether there was.
pub(crate) fn note_open(
    room: &mut usize,
    names: &mut Vec<u8>,
    entries: &mut Vec<Entry>,
    kind: EntryKind,
    name: &str,
) -> bool
    requires names_room { vec_len names.old + room.old ≤ vec_capacity names.old }
    requires entries_room { vec_len entries.old + room.old ≤ vec_capacity entries.old }
    requires all_names { names_len entries.old.items ≡ length names.old.items }
    ensures noted { result ≡ nat_lt (length name.now) room.old }
    ensures room { room.new ≡ (if nat_lt (length name.now) room.old
        then room.old - (length name.now + 1) else room.old) }
    ensures opens { opens_named entries.new.items names.new.items
        ≡ (if nat_lt (length name.now) room.old
        then opens_named entries.old.items names.old.items ++ opened_by kind name.now ∷ []
        else opens_named entries.old.items names.old.items) }
    ensures names_room_stays { vec_len names.new + room.new ≤ vec_capacity names.new }
    ensures entries_room_stays { vec_len entries.new + room.new ≤ vec_capacity entries.new }
    ensures all_names_stays { names_len entries.new.items ≡ length names.new.items }
{
    let len = name.len();
    if len >= *room {
        return false;
    }
    *room -= len + 1;
    add_within(names, name.as_bytes());
    let _ = entries.push(Entry { kind, len });
    true
}

/// Writes the prefix of a piece that `most` and the room allow, and says how long it is.
pub(crate) fn add_front(stream: &mut Vec<u8>, room: &mut usize, most: usize, bytes: &[u8]) -> usize
    requires { vec_len stream.old + room.old ≤ vec_capacity stream.old }
    ensures amount { result ≡ min (min (length bytes.now) most) room.old }
    ensures stream { stream.new.items ≡ stream.old.items ++ take result bytes.now }
    ensures room { room.new ≡ room.old - result }
    ensures room_stays { vec_len stream.new + room.new ≤ vec_capacity stream.new }
{
    let count = bytes.len().min(most).min(*room);
    add_within(stream, &bytes[..count]);
    *room -= count;
    count
}
