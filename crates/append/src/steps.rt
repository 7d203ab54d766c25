// The steps of greedy append: each puts the next vertex at the end where it makes fewer crossings,
// counted by weight (document 02, Note 8).
ghost use Rattle.std.specs.Prelude.{◌≡◌, ◌+◌, ◌<◌, ◌≤◌};
ghost use Rattle.append_ends.specs.Ends.{most_at_end};
ghost use Rattle.append.specs.Steps.{Graph, Fitting, Few, put_of, placed_of, LinkedPlaced};

use append_choice::next_vertex;
use append_ends::{Ends, OpenEdges};
use append_line::Line;

// The vertices placed so far, as a list and as bits, and the tally.
#[derive(Clone, Copy)]
pub struct Partial {
    pub line: Line,
    pub placed: u64,
    pub tally: u64,
}

// s, and after it every vertex with edges. A vertex is chosen by numbers of edges, and put at an end by
// weights.
pub(crate) fn place_linked(
    n: usize,
    adjacency: &[u64; 64],
    weights: &[u8; 4096],
    s: usize,
) -> Partial
    requires { Graph n adjacency.now weights.now × (s < n) }
    ensures { LinkedPlaced n adjacency.now weights.now s result }
{
    let mut so_far = Partial {
        line: Line::alone(s),
        placed: words::set(0, s),
        tally: 0,
    };
    let mut edges = OpenEdges::all(weights);
    edges.close(s);
    while let Some(v) = next_vertex(n, adjacency, so_far.placed) {
        edges.close(v);
        so_far.place(&edges, v);
    }
    so_far
}

impl Partial {
    // One step: the edges to v are not open any more.
    fn place(&mut self, edges: &OpenEdges, v: usize)
        requires { Fitting self.old v }
        ensures { (self.new ≡ placed_of edges.now.weights.now edges.now.sums self.old v) × (self.new.tally ≤ self.old.tally + most_at_end) }
    {
        let ends = edges.end_crossings(&self.line, v);
        self.placed = words::set(self.placed, v);
        self.put(v, ends);
    }

    // v at the end where it makes fewer crossings; on a tie, at the back. placed has it already.
    #[tactic(auto, unfolding(crate::specs::Steps::put_of))]
    fn put(&mut self, v: usize, ends: Ends)
        requires { Fitting self.old v × Few ends }
        ensures { (self.new ≡ put_of self.old v self.old.placed ends) × (self.new.tally ≤ self.old.tally + most_at_end) }
    {
        if ends.front < ends.back {
            self.line.put_front(v);
            self.tally += ends.front;
        } else {
            self.line.put_back(v);
            self.tally += ends.back;
        }
    }
}
