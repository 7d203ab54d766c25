// Lists of calls played. A single call stands in calls_step, calls and answers as numbers in
// calls_encoding.
#![tactic(auto)]

mod playing;

pub use playing::{play, play_from};
