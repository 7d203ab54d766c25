// Calls, their answers and where a list of them starts, written as numbers.
#![tactic(auto)]

mod answers;
mod calls;

pub use answers::put_answer;
pub use calls::{call_at, call_of, count_calls};
