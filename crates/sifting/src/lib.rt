// Circular sifting (document 01: sift, round, settle). One file for each call, and one for the
// layout that they lead to.
#![tactic(auto)]

mod convergence;
mod layouts;
mod rounds;
mod sifts;

pub use convergence::converge;
pub use rounds::sifting_round;
pub use sifts::sift;
