// Sifting one vertex to its best place (document 01: sift).
ghost use Rattle.std.specs.Prelude.{◌≡◌, ◌<◌, T, Ok};
ghost use Rattle.model.specs.Answers.{as_sifted};
ghost use Rattle.model.specs.Layouts.{valid};
ghost use Rattle.model.specs.Sifting.{sift_answer, sift_of};

use super::layouts::relaid;
use model::{Layout, Refusal, SiftSummary};
use sift_walk::Table;
use validity::check_vertex;
use weights::row_weights;

pub fn sift(l: Layout, u: usize) -> Result<(Layout, SiftSummary), Refusal>
    ensures { as_sifted l result ≡ sift_of l u }
{
    check_vertex(l, u)?;
    Ok(sift_vertex(l, u))
}

// A sift whose checks have passed.
fn sift_vertex(l: Layout, u: usize) -> (Layout, SiftSummary)
    requires { T (valid l) × (u < l.n) }
    ensures { as_sifted l (Ok result) ≡ sift_answer l u }
{
    let rows = row_weights(&l.weights);
    let table = Table {
        n: l.n,
        weights: &l.weights,
        rows: &rows,
    };
    let best = table.best_order(l.order, u);
    let summary = SiftSummary {
        reduction: best.saving,
        optima: best.optima,
    };
    (relaid(l, best.order, best.saving), summary)
}
