// The shown crossing pair: the edges in their sequence, and a search over each two of them.
ghost use Rattle.std.specs.Prelude.{Ok, ◌≡◌, ◌+◌, ◌*◌, ◌<◌, length, take};
ghost use Rattle.model.specs.Reading.{shown, first_pair, first_crossing_of};
ghost use Rattle.laws.specs.Buffers.EdgeBytes.{edge_at};
ghost use Rattle.laws.specs.Layouts.FirstCrossing.{found};
ghost use Rattle.edge_list.specs.Listed.{listed};
ghost use Rattle.first_crossing.specs.Search.{cross_at, Searchable};

use model::{Edge, Layout, Refusal};
use validity::check_valid;

// The first pair of edges that crosses, if there is one.
pub fn first_crossing(l: Layout) -> Result<Option<(Edge, Edge)>, Refusal>
    ensures { shown result ≡ first_crossing_of l }
{
    check_valid(l)?;
    // room for the edges of 64 vertices, as many as there may be: the library has no heap
    let mut ends = [0u8; 4032];
    let end = edge_list::put_edges(&mut ends, 0, l.n, &l.adjacency);
    Ok(first_pair(l.n, &l.order, end / 2, &ends))
}

// Of the listed edges, the first pair that crosses. Document 01 asks for two loops, left from inside by a
// label with the pair.
fn first_pair(n: usize, order: &[u8; 64], count: usize, ends: &[u8]) -> Option<(Edge, Edge)>
    requires { Searchable n order.now count ends.now }
    ensures { shown (Ok result) ≡ found (first_pair (take n order.now) (listed ends.now count)) }
{
    let places = places::places_of(n, order);
    'search: {
        for first in 0..count {
            let e = edge_at(ends, first);
            for second in first + 1..count {
                let f = edge_at(ends, second);
                if cross(&places, e, f) {
                    break 'search Some((e, f));
                }
            }
        }
        None
    }
}

// The edge whose ends are the bytes at twice i and behind it.
#[tactic(auto, unfolding(laws::specs::Buffers::EdgeBytes::edge_at))]
fn edge_at(ends: &[u8], i: usize) -> Edge
    requires { 2 * i + 1 < length ends.now }
    ensures { result ≡ edge_at ends.now i }
{
    Edge {
        low: usize::from(ends[2 * i]),
        high: usize::from(ends[2 * i + 1]),
    }
}

// Do the two edges cross, by the places of their ends?
#[tactic(auto, unfolding(crate::specs::Search::cross_at))]
fn cross(places: &[u8; 64], e: Edge, f: Edge) -> bool
    requires { (e.low < 64) × (e.high < 64) × (f.low < 64) × (f.high < 64) }
    ensures { result ≡ cross_at places.now e f }
{
    alternation::differ(e.low, e.high, f.low, f.high)
        && alternation::alternate(places[e.low], places[e.high], places[f.low], places[f.high])
}
