// Playing a list of calls (the format of tests/README.md), one record at a time: a record and the
// layout that stands go in, the answer line and the layout that then stands come out. Nothing here
// reads or writes a file. What a line says is compared with a second program by tests; what is
// proved is that every function is safe and ends, and that every line fits its buffer.

#![tactic(auto)]

mod dispatch;
mod starts;

pub use dispatch::{play, play_start, starts_from_bytes};
pub use play_answers::Played;
pub use play_records::{bytes_kept, bytes_rest, number};
