// The listing that ringlist prints, as bytes in a lent buffer.
#![tactic(auto)]

mod listings;

pub use listings::list_chart;
