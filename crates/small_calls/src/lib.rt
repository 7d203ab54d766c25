// The calls on layouts of at most eight vertices (document 02, Note 10), each into a lent buffer.
#![tactic(auto)]

mod checks;
mod least;
mod listed;
mod order_buffer;

pub use least::least_crossings;
pub use listed::order_at;
