// One call: the outcome of a call on a layout.
#![tactic(auto)]

mod outcomes;
mod steps;

pub use steps::step;
