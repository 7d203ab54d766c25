// Text, written into a lent buffer from a place on. Each call answers the place behind what it
// wrote. Where there is no room it writes nothing, and answers the place itself.
#![tactic(auto)]

ghost use Rattle.std.specs.Prelude.{◌≡◌, ◌+◌, ◌≤◌, length, ltb};
ghost use Rattle.text.specs.Room.{Put};

pub fn put_text(out: &mut [u8], at: usize, t: &[u8]) -> usize
    ensures { Put (length t.now) out.old at t.now out.new result }
{
    if lacks(out.len(), at, t.len()) {
        return at;
    }
    let end = at + t.len();
    out[at..end].copy_from_slice(t);
    end
}

// Are there not so many places from place at on?
pub fn lacks(size: usize, at: usize, room: usize) -> bool
    ensures { result ≡ ltb size (at + room) }
{
    size < room || size - room < at
}
