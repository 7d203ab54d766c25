// Graphs as 64 adjacency words: are the words those of a graph?
#![tactic(auto)]

mod rows;

pub use rows::is_bounded;
