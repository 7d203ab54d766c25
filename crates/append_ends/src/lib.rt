// The weighted crossings that the next vertex of greedy append makes at either end of the list of
// placed vertices (document 02, Note 8). Holds for any bytes: a vertex is taken modulo 64, which
// changes nothing for vertices.
#![tactic(auto)]

ghost use Rattle.std.specs.Prelude.{◌≡◌, ◌%◌, ◌≤◌, length};
ghost use Rattle.laws.specs.Tables.Rows.{RowsOf, TakenRow};
ghost use Rattle.append_ends.specs.Ends.{vertices, ends_of, most_at_end};
ghost use Rattle.append_ends.specs.Passes.{passed_of, Small};
ghost use Rattle.append_ends.specs.Placed.{as_vertices};

use append_line::Line;

// A closing edge crosses an open one: at the front where the open one starts before the other, and at
// the back where it starts behind.
#[derive(Clone, Copy)]
pub struct Ends {
    pub front: u64,
    pub back: u64,
}

// The weight of each edge, and for each vertex the weight of its open ones.
#[derive(Clone, Copy)]
pub struct OpenEdges<'a> {
    pub weights: &'a [u8; 4096],
    pub sums: [u16; 64],
}

impl<'a> OpenEdges<'a> {
    // While no vertex is placed, every edge is open.
    pub fn all(weights: &'a [u8; 4096]) -> OpenEdges<'a>
        ensures weights { result.weights.now ≡ weights.now }
        ensures rows { RowsOf weights.now result.sums }
    {
        OpenEdges {
            weights,
            sums: weights::row_weights(weights),
        }
    }

    // The edges to v are not open any more.
    pub fn close(&mut self, v: usize)
        ensures weights { self.new.weights.now ≡ self.old.weights.now }
        ensures row { TakenRow self.old.weights.now (v % 64) self.old.sums self.new.sums }
    {
        weights::sub_row(&mut self.sums, self.weights, v);
    }

    // The ends of any line: its start and its size are taken modulo 65, which changes nothing for 64
    // vertices or fewer around the middle (append_line).
    pub fn end_crossings(&self, line: &Line, v: usize) -> Ends
        ensures { (result ≡ ends_of self.now.weights.now self.now.sums (v % 64) (vertices line.now))
            × ((result.front ≤ most_at_end) × (result.back ≤ most_at_end)) }
    {
        self.ends_of(line.placed(), v)
    }

    // Goes once through the placed vertices, a byte each. The open edges are those to vertices that are
    // neither placed nor v.
    pub fn ends_of(&self, placed: &[u8], v: usize) -> Ends
        requires { length placed.now ≤ 64 }
        ensures { (result ≡ ends_of self.now.weights.now self.now.sums (v % 64) (as_vertices placed.now))
            × ((result.front ≤ most_at_end) × (result.back ≤ most_at_end)) }
    {
        let mut met = Met {
            front: 0,
            back: 0,
            closing: 0,
            opening: 0,
        };
        for place in placed {
            let p = (*place % 64) as usize;
            let closing = weights::weight_at(self.weights, v, p);
            met.pass(closing, self.sums[p]);
        }
        Ends {
            front: met.front,
            back: met.back,
        }
    }
}

// The same as Ends, with the weight of the closing and of the open edges met so far.
#[derive(Clone, Copy)]
struct Met {
    front: u64,
    back: u64,
    closing: u64,
    opening: u64,
}

impl Met {
    // One more placed vertex, with the weight of its closing edge and of its open ones.
    fn pass(&mut self, closing: u32, opening: u16)
        requires { Small self.old 64 × (closing ≤ 255) }
        ensures { (self.new ≡ passed_of self.old closing opening) × (opening ≤ 65535) }
    {
        let closed = u64::from(closing);
        let opened = u64::from(opening);
        self.front += closed * self.opening;
        self.back += self.closing * opened;
        self.closing += closed;
        self.opening += opened;
    }
}
