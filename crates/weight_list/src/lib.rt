// The weights of a graph's edges, listed (document 02, Note 8): a byte each, in the sequence in which
// edge_list lists the edges. Above 64 vertices none is listed.
#![tactic(auto)]

ghost use Rattle.std.specs.Prelude.{◌≡◌, map, ◌+◌, ◌*◌, ◌%◌, ◌≤◌, length};
ghost use Rattle.model.specs.Crossings.{edge_weight};
ghost use Rattle.model.specs.Layouts.{table_weight};
ghost use Rattle.laws.specs.Buffers.Writing.{Written};
ghost use Rattle.text.specs.Room.{Put};
ghost use Rattle.edge_list.specs.Rows.{listed_edges};
ghost use Rattle.weight_list.specs.Weighed.{weighed};

// Writes the weights into a lent buffer from place at on, and answers the place behind them. Where there
// is no room it writes nothing, and answers the place itself.
pub fn put_weights(
    out: &mut [u8],
    at: usize,
    n: usize,
    adjacency: &[u64; 64],
    weights: &[u8; 4096],
) -> usize
    ensures { let es = listed_edges n adjacency.now in
        Put (length es) out.old at (map (edge_weight (table_weight weights.now)) es) out.new result }
{
    // room for the edges of 64 vertices, as many as there may be: the library has no heap
    let mut ends = [0u8; 4032];
    let count = edge_list::put_edges(&mut ends, 0, n, adjacency) / 2;
    if text::lacks(out.len(), at, count) {
        return at;
    }
    put_each(out, at, weights, &ends, count)
}

// The weight of each of the listed edges.
fn put_each(out: &mut [u8], at: usize, weights: &[u8; 4096], ends: &[u8], count: usize) -> usize
    requires { (2 * count ≤ length ends.now) × (at + count ≤ length out.old) }
    ensures { Written out.old at (weighed weights.now ends.now count) out.new result }
{
    for i in 0..count {
        out[at + i] = weight_of(weights, ends[2 * i], ends[2 * i + 1]);
    }
    at + count
}

fn weight_of(weights: &[u8; 4096], low: u8, high: u8) -> u8
    ensures { result ≡ table_weight weights.now (low % 64) (high % 64) }
{
    let weight = weights::weight_at(weights, low as usize, high as usize);
    weight as u8
}
