// The search for a crossing pair of edges (document 01: the shown crossing pair).
#![tactic(auto)]

mod crossing;

pub use crossing::first_crossing;
