// A sifting round (document 01: round): every vertex is sifted once, in rising number.
ghost use Rattle.std.specs.Prelude.{◌≡◌, ◌+◌, ◌≤◌, T, Ok};
ghost use Rattle.laws.specs.Crossings.Bound.{most_weighted};
ghost use Rattle.laws.specs.Sifting.Optima.{most_optima};
ghost use Rattle.laws.specs.Tables.Rows.{RowsOf};
ghost use Rattle.model.specs.Answers.{as_rounded};
ghost use Rattle.model.specs.Layouts.{valid};
ghost use Rattle.model.specs.Sifting.{sift_round, round_of};
ghost use Rattle.sifting.specs.Arrays.{Drawn};
ghost use Rattle.sifting.specs.Sweeps.{swept_round, swept_next};

use super::layouts::relaid;
use model::{Layout, Refusal, RoundSummary};
use sift_walk::{Table, Walk};
use validity::check_valid;
use weights::row_weights;

// What sifts one after the other have led to: the order, by how much its crossings are fewer than
// before them, how many vertices moved, and the summed optima.
#[derive(Clone, Copy)]
pub(crate) struct Swept {
    pub(crate) order: [u8; 64],
    pub(crate) reduction: u64,
    pub(crate) moved: u32,
    pub(crate) optima: u32,
}

impl Swept {
    // One sift more.
    #[tactic(auto, unfolding(crate::specs::Sweeps::swept_next))]
    fn add(&mut self, best: &Walk)
        requires { (self.old.reduction + best.now.saving ≤ most_weighted) × (self.old.moved ≤ 64)
            × (self.old.optima + best.now.optima ≤ most_optima) }
        ensures { self.new ≡ swept_next self.old best.now }
    {
        self.order = best.order;
        self.reduction += best.saving;
        self.moved += u32::from(best.saving != 0);
        self.optima += best.optima;
    }
}

pub fn sifting_round(l: Layout) -> Result<(Layout, RoundSummary), Refusal>
    ensures { as_rounded l result ≡ round_of l }
{
    check_valid(l)?;
    Ok(sift_vertices(l))
}

// A round whose check has passed.
fn sift_vertices(l: Layout) -> (Layout, RoundSummary)
    requires { T (valid l) }
    ensures { as_rounded l (Ok result) ≡ sift_round l }
{
    let rows = row_weights(&l.weights);
    let table = Table {
        n: l.n,
        weights: &l.weights,
        rows: &rows,
    };
    let swept = sift_all(l.order, &table);
    let summary = RoundSummary {
        reduction: swept.reduction,
        moved: swept.moved,
        optima: swept.optima,
    };
    (relaid(l, swept.order, swept.reduction), summary)
}

// The vertices of an order sifted, over the table of weights alone. The weights of the vertices are
// given.
pub(crate) fn sift_all(order: [u8; 64], table: &Table) -> Swept
    requires { Drawn table.now.n table.now.weights.now order × RowsOf table.now.weights.now table.now.rows.now }
    ensures { result ≡ swept_round table.now.n table.now.weights.now order }
{
    let mut state = Swept {
        order,
        reduction: 0,
        moved: 0,
        optima: 0,
    };
    for u in 0..table.n {
        let best = table.best_order(state.order, u);
        state.add(&best);
    }
    state
}
