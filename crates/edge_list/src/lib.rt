// The edges of a graph, listed: lower end first, sorted by lower, then higher end, two bytes each.
// Above 64 vertices none is listed.
#![tactic(auto)]

ghost use Rattle.std.specs.Prelude.{◌≡◌, ◌+◌, ◌*◌, ◌≤◌, ◌<◌, length};
ghost use Rattle.model.specs.Crossings.{edges};
ghost use Rattle.model.specs.WrittenCharts.{edge_bytes};
ghost use Rattle.laws.specs.Buffers.Writing.{Written};
ghost use Rattle.text.specs.Room.{Put};
ghost use Rattle.edge_list.specs.Rows.{listed_edges, row_edges};

// How many edges there are.
pub fn edge_count(n: usize, adjacency: &[u64; 64]) -> u32
    ensures { result ≡ length (listed_edges n adjacency.now) }
{
    if 64 < n {
        return 0;
    }
    let mut total: u32 = 0;
    for a in 0..n {
        total += row_count(n, adjacency[a], a);
    }
    total
}

// Writes the edges into a lent buffer from place at on, and answers the place behind them. Where
// there is no room it writes nothing, and answers the place itself.
pub fn put_edges(out: &mut [u8], at: usize, n: usize, adjacency: &[u64; 64]) -> usize
    ensures { let es = listed_edges n adjacency.now in
        Put (2 * length es) out.old at (edge_bytes es) out.new result }
{
    let count = edge_count(n, adjacency) as usize;
    if 64 < n || text::lacks(out.len(), at, 2 * count) {
        return at;
    }
    put_rows(out, at, n, adjacency)
}

fn put_rows(out: &mut [u8], at: usize, n: usize, adjacency: &[u64; 64]) -> usize
    requires { (n ≤ 64) × (at + 2 * length (edges n adjacency.now) ≤ length out.old) }
    ensures { Written out.old at (edge_bytes (edges n adjacency.now)) out.new result }
{
    let mut to = at;
    for a in 0..n {
        to = put_row(out, to, n, adjacency[a], a);
    }
    to
}

// The edges from a to higher vertices.
fn put_row(out: &mut [u8], at: usize, n: usize, word: u64, a: usize) -> usize
    requires { (n ≤ 64) × (a < n) × (at + 2 * length (row_edges word a n) ≤ length out.old) }
    ensures { Written out.old at (edge_bytes (row_edges word a n)) out.new result }
{
    let mut to = at;
    for b in a + 1..n {
        if words::is_set(word, b) {
            out[to] = a as u8;
            out[to + 1] = b as u8;
            to += 2;
        }
    }
    to
}

// How many edges there are from a to higher vertices: bits below n that are not among the first a + 1.
fn row_count(n: usize, word: u64, a: usize) -> u32
    requires { (n ≤ 64) × (a < n) }
    ensures { result ≡ length (row_edges word a n) }
{
    let below = words::count(word, words::low_bits(n));
    let lower = words::count(word, words::low_bits(a + 1));
    below - lower
}
