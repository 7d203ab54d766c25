// Sifting rounds until one moves no vertex, or the limit is reached (document 01: settle).
ghost use Rattle.std.specs.Prelude.{◌≡◌, ◌+◌, ◌*◌, ◌<◌, ◌≤◌, T, Ok};
ghost use Rattle.laws.specs.Crossings.Bound.{most_weighted};
ghost use Rattle.laws.specs.Sifting.Optima.{most_optima};
ghost use Rattle.laws.specs.Tables.Rows.{RowsOf};
ghost use Rattle.model.specs.Answers.{as_converged};
ghost use Rattle.model.specs.Layouts.{valid};
ghost use Rattle.model.specs.Sifting.{settle_of, rounds_up_to};
ghost use Rattle.sifting.specs.Arrays.{Drawn};
ghost use Rattle.sifting.specs.Settling.{settled_within, settled_next};

use super::layouts::relaid;
use super::rounds::{Swept, sift_all};
use model::{ConvergeSummary, Layout, Refusal};
use sift_walk::Table;
use validity::check_limit;
use weights::row_weights;

// What rounds one after the other have led to.
#[derive(Clone, Copy)]
struct Settled {
    order: [u8; 64],
    reduction: u64,
    rounds: u32,
    converged: bool,
    optima: u32,
}

impl Settled {
    // One round more.
    #[tactic(auto, unfolding(crate::specs::Settling::settled_next))]
    fn add(&mut self, round: &Swept)
        requires { (self.old.reduction + round.now.reduction ≤ most_weighted) × (self.old.rounds < 1000)
            × (self.old.optima + round.now.optima ≤ most_optima * 1000) }
        ensures { self.new ≡ settled_next self.old round.now }
    {
        self.order = round.order;
        self.reduction += round.reduction;
        self.rounds += 1;
        self.converged = round.moved == 0;
        self.optima += round.optima;
    }
}

pub fn converge(l: Layout, limit: u32) -> Result<(Layout, ConvergeSummary), Refusal>
    ensures { as_converged l result ≡ settle_of l limit }
{
    check_limit(l, limit)?;
    Ok(settle(l, limit))
}

// A settling whose checks have passed.
fn settle(l: Layout, limit: u32) -> (Layout, ConvergeSummary)
    requires { T (valid l) × (limit ≤ 1000) }
    ensures { as_converged l (Ok result) ≡ rounds_up_to limit l }
{
    let rows = row_weights(&l.weights);
    let table = Table {
        n: l.n,
        weights: &l.weights,
        rows: &rows,
    };
    let end = run_rounds(l.order, &table, limit);
    let summary = ConvergeSummary {
        reduction: end.reduction,
        rounds: end.rounds,
        converged: end.converged,
        optima: end.optima,
    };
    (relaid(l, end.order, end.reduction), summary)
}

// Rounds, counted against the limit.
fn run_rounds(order: [u8; 64], table: &Table, limit: u32) -> Settled
    requires { Drawn table.now.n table.now.weights.now order × RowsOf table.now.weights.now table.now.rows.now × (limit ≤ 1000) }
    ensures { result ≡ settled_within table.now.n table.now.weights.now limit order }
{
    let mut state = Settled {
        order,
        reduction: 0,
        rounds: 0,
        converged: false,
        optima: 0,
    };
    for _ in 0..limit {
        let round = sift_all(state.order, table);
        state.add(&round);
        if state.converged {
            break;
        }
    }
    state
}
