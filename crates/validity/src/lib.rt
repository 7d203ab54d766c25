// Is a layout valid (document 01: whole), and the checks of a call on one.
#![tactic(auto)]

mod checks;
mod validity;

pub use checks::{check_limit, check_pair, check_valid, check_vertex};
pub use validity::is_valid;
