// Circular layouts: the empty one, a vertex added, and a vertex moved. The edges stand in edges, the
// calls that only read in queries.
#![tactic(auto)]

mod moves;
mod start;
mod vertices;

pub use moves::move_after;
pub use start::empty;
pub use vertices::add_vertex;
