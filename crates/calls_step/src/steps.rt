// A step: one call on a layout.
ghost use Rattle.std.specs.Prelude.{◌≡◌};
ghost use Rattle.model.specs.Answers.{as_converged};
ghost use Rattle.model.specs.Edits.{add_of, link_of, unlink_of, move_of};
ghost use Rattle.model.specs.GreedyAppend.{lay_of};
ghost use Rattle.model.specs.Sifting.{sift_of, round_of, settle_of};
ghost use Rattle.model.specs.Histories.{answer_of, of_added, of_changed, of_appended, of_sifted, of_rounded, of_converged};

use super::outcomes::{of_added, of_appended, of_changed, of_converged, of_rounded, of_sifted};
use append::greedy_append;
use edges::{add_edge, remove_edge};
use layout::{add_vertex, move_after};
use model::{Call, ConvergeSummary, Layout, Outcome, Refusal};
use sifting::{converge, sift, sifting_round};

pub fn step(l: Layout, c: Call) -> Outcome
    ensures { result ≡ answer_of l c }
{
    match c {
        Call::AddVertex => added(l),
        Call::AddEdge(a, b, weight) => joined(l, a, b, weight),
        Call::RemoveEdge(a, b) => parted(l, a, b),
        Call::MoveAfter(a, b) => moved(l, a, b),
        Call::GreedyAppend(s) => appended(l, s),
        Call::Sift(u) => sifted(l, u),
        Call::SiftingRound => swept(l),
        Call::Converge(limit) => converged(l, limit),
    }
}

// Each call in a function of its own: a function sets the place of each result to zeros where it begins, and
// in step those were the results of all eight, as large as a layout each.

fn added(l: Layout) -> Outcome
    ensures { result ≡ of_added (add_of l) }
{
    of_added(l, add_vertex(l))
}

fn joined(l: Layout, a: usize, b: usize, weight: u8) -> Outcome
    ensures { result ≡ of_changed (link_of l a b weight) }
{
    of_changed(l, add_edge(l, a, b, weight))
}

fn parted(l: Layout, a: usize, b: usize) -> Outcome
    ensures { result ≡ of_changed (unlink_of l a b) }
{
    of_changed(l, remove_edge(l, a, b))
}

fn moved(l: Layout, a: usize, b: usize) -> Outcome
    ensures { result ≡ of_changed (move_of l a b) }
{
    of_changed(l, move_after(l, a, b))
}

fn appended(l: Layout, s: usize) -> Outcome
    ensures { result ≡ of_appended (lay_of l s) }
{
    of_appended(l, greedy_append(l, s))
}

fn sifted(l: Layout, u: usize) -> Outcome
    ensures { result ≡ of_sifted (sift_of l u) }
{
    of_sifted(l, sift(l, u))
}

fn swept(l: Layout) -> Outcome
    ensures { result ≡ of_rounded (round_of l) }
{
    of_rounded(l, sifting_round(l))
}

fn converged(l: Layout, limit: usize) -> Outcome
    ensures { result ≡ of_converged (settle_of l limit) }
{
    of_converged(l, converge_within(l, limit))
}

// Any limit at all: every one above 1000 is refused alike.
fn converge_within(l: Layout, limit: usize) -> Result<(Layout, ConvergeSummary), Refusal>
    ensures { as_converged l result ≡ settle_of l limit }
{
    if 1000 < limit {
        return converge(l, 1001);
    }
    converge(l, limit as u32)
}
