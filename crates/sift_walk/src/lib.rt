// The best place of one vertex with weighted crossings, found in one walk (document 02, Notes 5 and
// 8): the vertex is exchanged with its next neighbour in the order until it has passed all others,
// and one sum over the row of the vertex passed tells by how much the next candidate differs.
// The numbers that the sum goes by, the reaches, stay as they are at the start; what those passed add
// to it is kept apart, for each vertex its weight on them.
#![tactic(auto)]

ghost use Rattle.std.specs.Prelude.{◌≡◌, ◌+◌, ◌*◌, ◌<◌, ◌≤◌, slice_index};
ghost use Rattle.laws.specs.Tables.Rows.{most_weight, RowsOf};
ghost use Rattle.sift_walk.specs.Keeping.{kept_next};
ghost use Rattle.sift_walk.specs.Seats.{turned as turned_place, other_at, Walker, Seated};
ghost use Rattle.sift_walk.specs.Reaching.{ReachesOf};
ghost use Rattle.sift_walk.specs.Walks.{start, most_change, Passed, KeptRight};
ghost use Rattle.sift_walk.specs.Finding.{Found, chosen as chosen_walk};

use places::{moved, place_of};
use std::cmp::Ordering;
use weights::{add_row, row_sum, row_weight, weight_at};

// It stands for the crossings of the present order, which are not counted: the crossings of a
// candidate differ from those of the present order as its running number does from this.
const START: u64 = 1099511627776;

// A table of weights of n vertices, and the weight of each vertex.
#[derive(Clone, Copy)]
pub struct Table<'a> {
    pub n: usize,
    pub weights: &'a [u8; 4096],
    pub rows: &'a [u16; 64],
}

// The order after a sift, by how much its crossings are fewer, and how many candidates have as few.
#[derive(Clone, Copy)]
pub struct Walk {
    pub order: [u8; 64],
    pub saving: u64,
    pub optima: u32,
}

// What is kept of the candidates so far: their least number, the first that has it, and how many have
// it.
#[derive(Clone, Copy)]
struct Kept {
    least: u64,
    first: usize,
    optima: u32,
}

// How far the walk is: the number of the present candidate, the weight of the vertex on those passed,
// and what is kept.
#[derive(Clone, Copy)]
struct Step {
    number: u64,
    met: u32,
    kept: Kept,
}

// The vertex u that is sifted, at its place p in the order, or behind the last where it has none.
#[derive(Clone, Copy)]
struct Seat<'a> {
    n: usize,
    order: &'a [u8; 64],
    weights: &'a [u8; 4096],
    rows: &'a [u16; 64],
    u: usize,
    p: usize,
    ghost few: { n ≤ 64 },
    ghost vertex: { u < n },
    ghost inside: { p ≤ n },
}

impl Table<'_> {
    // Of the present order and the n - 1 candidates the first with fewest crossings, and how many of
    // the candidates have them. The weights of the vertices are given. Of bytes that are no valid
    // layout nothing is said.
    pub fn best_order(&self, order: [u8; 64], u: usize) -> Walk
        ensures { Walker self.now.n order self.now.weights.now u → RowsOf self.now.weights.now self.now.rows.now
            → Found self.now.n order self.now.weights.now u result }
    {
        let n = self.n;
        if 64 < n || n <= u {
            return Walk::staying(order, 0);
        }
        let p = place_of(&order[..n], u);
        let seat = Seat {
            n,
            order: &order,
            weights: self.weights,
            rows: self.rows,
            u,
            p,
        };
        let kept = seat.pass_all();
        seat.chosen(kept)
    }
}

impl Walk {
    // The order as it is.
    fn staying(order: [u8; 64], optima: u32) -> Walk
        ensures { result ≡ record { order = order; saving = 0; optima = optima } }
    {
        Walk {
            order,
            saving: 0,
            optima,
        }
    }
}

impl Seat<'_> {
    // All others passed, one after the other.
    fn pass_all(&self) -> Kept
        ensures { (result.first ≤ 64)
            × (Seated self.now.n self.now.order.now self.now.weights.now self.now.u self.now.p
            → RowsOf self.now.weights.now self.now.rows.now
            → KeptRight self.now.n self.now.order.now self.now.weights.now self.now.u result) }
    {
        let whole = row_weight(self.weights, self.u);
        let reaches = self.reaches();
        let mut behind = [0u16; 64];
        let mut step = Step {
            number: START,
            met: 0,
            kept: Kept {
                least: u64::MAX,
                first: 0,
                optima: 0,
            },
        };
        for j in 0..self.n - 1 {
            let v = self.other_at(j);
            step = self.passing(step, &reaches, whole, behind[v], v, j);
            add_row(&mut behind, self.weights, v);
        }
        step.kept
    }

    // The reaches that the walk starts with: of each other vertex y, twice the weight of u on those
    // before y clockwise from u, and the weight between u and y. Of u itself 0.
    fn reaches(&self) -> [u16; 64]
        ensures { Seated self.now.n self.now.order.now self.now.weights.now self.now.u self.now.p
            → ReachesOf self.now.n self.now.order.now self.now.weights.now self.now.u result }
    {
        let mut reaches = [0u16; 64];
        let mut met: u32 = 0;
        for i in 0..self.n - 1 {
            let v = self.other_at(i);
            let w = weight_at(self.weights, self.u, v);
            reaches[v] = (2 * met + w) as u16;
            met += w;
        }
        reaches
    }

    // One more vertex v passed, by its weight on those passed before. The row's weight is taken without
    // that towards u.
    fn passing(
        &self,
        step: Step,
        reaches: &[u16; 64],
        whole: u32,
        behind: u16,
        v: usize,
        j: usize,
    ) -> Step
        requires { (step.met ≤ most_weight) × (whole ≤ most_weight) × (step.kept.optima ≤ 64) × (v < 64)
            × (most_change ≤ step.number) × (step.number ≤ 2 * start) }
        ensures { Passed step self.now.weights.now reaches.now whole (slice_index self.now.rows.now v) behind self.now.u v j result }
    {
        let w = weight_at(self.weights, self.u, v);
        let reached = row_sum(self.weights, v, reaches);
        let factor = whole + w + 2 * step.met;
        let gained = factor * self.rows[v] as u32;
        let own = factor * w;
        let around = 2 * whole * behind as u32;
        let number = step.number + gained as u64 - own as u64 - around as u64 - reached as u64;
        Step {
            number,
            met: step.met + w,
            kept: step.kept.next(number, j),
        }
    }

    // The first best candidate, if it has fewer crossings than the present order.
    fn chosen(&self, kept: Kept) -> Walk
        requires { kept.first ≤ 64 }
        ensures { result ≡ chosen_walk self.now.n self.now.p self.now.order.now kept }
    {
        let Kept {
            least,
            first,
            optima,
        } = kept;
        if least < START {
            Walk {
                order: moved(*self.order, self.p, self.turned(first)),
                saving: START - least,
                optima,
            }
        } else {
            Walk::staying(*self.order, optima)
        }
    }

    // The j-th of the others clockwise from the vertex.
    #[tactic(auto, using(crate::specs::Seats::turned_few, crate::specs::Seats::other_made))]
    fn other_at(&self, j: usize) -> usize
        requires { j + 1 < self.now.n }
        ensures { (result ≡ other_at self.now.n self.now.p self.now.order.now j) × (result < 64) }
    {
        (self.order[self.turned(j)] % 64) as usize
    }

    // The place of the vertex j behind the next one clockwise. By a test, as its definition: `%` would divide
    // in the inner loop.
    #[tactic(auto, using(crate::specs::Seats::turned_on, crate::specs::Seats::turned_round))]
    fn turned(&self, j: usize) -> usize
        requires { j ≤ 64 }
        ensures { result ≡ turned_place self.now.n self.now.p j }
    {
        let q = self.p + 1 + j;
        if q < self.n { q } else { q - self.n }
    }
}

impl Kept {
    // One candidate more, which has this number.
    #[tactic(auto, using(crate::specs::Keeping::next_taken, crate::specs::Keeping::next_left, crate::specs::Keeping::next_beside))]
    fn next(self, number: u64, j: usize) -> Kept
        requires { self.optima ≤ 64 }
        ensures { result ≡ kept_next self number j }
    {
        match number.cmp(&self.least) {
            Ordering::Less => Kept {
                least: number,
                first: j,
                optima: 1,
            },
            Ordering::Equal => Kept {
                optima: self.optima + 1,
                ..self
            },
            Ordering::Greater => self,
        }
    }
}
