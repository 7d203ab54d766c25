// By value, what a host gets of the search for a crossing pair.
#![tactic(auto)]

ghost use Rattle.std.specs.Prelude.{◌≡◌};
ghost use Rattle.model.specs.Reports.{crossing_report_of};

use first_crossing::first_crossing;
use model::{CrossingReport, Layout};

#[tactic(auto, unfolding(model::specs::Reports::crossing_report_of))]
pub fn crossing_report(l: Layout) -> CrossingReport
    ensures { result ≡ crossing_report_of l }
{
    CrossingReport::from(first_crossing(l))
}
