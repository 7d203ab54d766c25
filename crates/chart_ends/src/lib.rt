// Questions 5 and 6 about a chart: its edges (links) as pairs of ends, a byte each.
#![tactic(auto)]

ghost use Rattle.std.specs.Prelude.{◌≡◌, []};
ghost use Rattle.model.specs.Charts.{asked, answer, end_checks, edge_within};
ghost use Rattle.laws.specs.Charts.Ends.{edge};

use model::Refusal;

// Questions 5 and 6: an even length, and the ends of each edge below n and different.
pub fn ask_ends(n: usize, links: &[u8]) -> Result<(), Refusal>
    ensures { asked result ≡ answer (end_checks n links.now) [] }
{
    let (pairs, odd) = links.as_chunks::<2>();
    if !odd.is_empty() {
        return Err(Refusal::OddLinks);
    }
    if pairs
        .iter()
        .all(|&[a, b]| is_edge(n, a as usize, b as usize))
    {
        Ok(())
    } else {
        Err(Refusal::NoEdge)
    }
}

// Are a and b the ends of an edge of n vertices?
#[tactic(auto, unfolding(model::specs::Charts::edge_within, laws::specs::Charts::Ends::edge))]
fn is_edge(n: usize, a: usize, b: usize) -> bool
    ensures { result ≡ edge_within n (edge a b) }
{
    a < n && b < n && a != b
}
