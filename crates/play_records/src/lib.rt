// The numbers of a record, eight bytes each, low byte first, the sizes of bytes that follow a
// record in a list, and layouts with a field set to such a number.
#![tactic(auto)]

mod fields;

ghost use Rattle.std.specs.Prelude.{◌≤◌};

pub use fields::{with_count, with_n, with_place, with_weight, with_word};

// The number from byte at on; 0 if the record has not so many bytes.
pub fn number(bytes: &[u8], at: usize) -> u64 {
    let word = bytes.get(at..).and_then(|rest| rest.first_chunk());
    word.map_or(0, |&word| u64::from_le_bytes(word))
}

// Of length bytes behind a record, how many are kept to be read. A longer chart or graph is refused as
// its first 8,193 bytes are.
pub fn bytes_kept(length: u64) -> usize
    ensures { result ≤ 8193 }
{
    length.min(8193) as usize
}

// How many bytes follow in the list behind those kept: the others, and the padding to a multiple
// of 32.
pub fn bytes_rest(length: u64) -> u64 {
    let padding = (32 - length % 32) % 32;
    length.saturating_sub(8193) + padding
}
