// Greedy append (document 01: lay). One file for each subject.
#![tactic(auto)]

mod appending;
mod steps;

pub use appending::greedy_append;
