// The least crossings of at most eight vertices (document 02, Note 10): the list of all orders with vertex 0
// first, gone through once. The crossings so far are kept, and a part of the list is left out where they
// have reached the least so far.
#![tactic(auto)]

ghost use Rattle.std.specs.Prelude.{◌≡◌, ◌≤◌};
ghost use Rattle.laws.specs.Tables.Rows.{table_weight};
ghost use Rattle.laws.specs.Small.Search.{search_rest};
ghost use Rattle.small_prefix.specs.Prefixes.{entries};
ghost use Rattle.small_search.specs.Branches.{Graph, Room, Begins, Extends, Underway, found_in, most, least_found};

use append_ends::OpenEdges;
use small_prefix::Prefix;

// The vertices placed so far, the crossings that they have met, and the edges to those that are not placed.
#[derive(Clone, Copy)]
pub struct Branch<'a> {
    pub prefix: Prefix,
    pub met: u64,
    pub edges: OpenEdges<'a>,
}

// The least crossings so far, and the first order that has them.
#[derive(Clone, Copy)]
pub struct Found {
    pub least: u64,
    pub order: [u8; 8],
}

// The least crossings that an order of the n vertices has, and the first order that has them.
pub fn least_of(n: usize, weights: &[u8; 4096]) -> Found
    requires { Graph n weights.now }
    ensures { found_in n result ≡ least_found n (table_weight weights.now) }
{
    if n == 0 {
        return Found {
            least: 0,
            order: [0; 8],
        };
    }
    // more crossings than any order has
    let none = Found {
        least: 1099511627776,
        order: [0; 8],
    };
    let first = Branch::begun(weights);
    first.list_rest(n, n - 1, none)
}

impl<'a> Branch<'a> {
    // Vertex 0 alone.
    fn begun(weights: &'a [u8; 4096]) -> Branch<'a>
        ensures { Begins weights.now result }
    {
        let mut edges = OpenEdges::all(weights);
        edges.close(0);
        Branch {
            prefix: Prefix::zero_first(),
            met: 0,
            edges,
        }
    }

    // All orders that start with the placed vertices and have left more, by placing one further vertex and
    // listing the rest.
    fn list_rest(&self, n: usize, left: usize, best: Found) -> Found
        requires { Graph n self.now.edges.weights.now × (Underway n left self.now.edges.weights.now self.now × (best.least ≤ most)) }
        ensures result_value { let b = self.now in
            found_in n result ≡ search_rest n (table_weight b.edges.weights.now) left (entries b.prefix) b.met (found_in n best) }
        ensures low { result.least ≤ best.least }
    {
        if best.least <= self.met {
            return best;
        }
        if left == 0 {
            return Found {
                least: self.met,
                order: self.prefix.places,
            };
        }
        let mut found = best;
        for v in 0..n {
            if !words::is_set(self.prefix.bits, v) {
                let next = self.put_behind(v);
                found = next.list_rest(n, left - 1, found);
            }
        }
        found
    }

    // v behind the placed vertices, with the crossings of the edges that it closes: those at the back end of
    // greedy append.
    fn put_behind(&self, v: usize) -> Branch<'a>
        requires { Room self.now }
        ensures { Extends self.now.edges.weights.now self.now v result }
    {
        // part by part: each is small enough to be copied in place
        let mut next = Branch {
            prefix: self.prefix,
            met: self.met,
            edges: OpenEdges {
                weights: self.edges.weights,
                sums: self.edges.sums,
            },
        };
        next.edges.close(v);
        let placed = &self.prefix.places[..self.prefix.size];
        let ends = next.edges.ends_of(placed, v);
        next.prefix = self.prefix.extended(v);
        next.met += ends.back;
        next
    }
}
