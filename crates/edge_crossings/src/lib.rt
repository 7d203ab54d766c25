// The crossings of every edge, each by the product of the two weights, filled into a lent table (document 02, Notes 7 and 8).
#![tactic(auto)]

ghost use Rattle.std.specs.Prelude.{◌≡◌, ◌*◌, ◌≤◌, length};
ghost use Rattle.model.specs.Answers.{as_edges};
ghost use Rattle.model.specs.Crossings.{edges};
ghost use Rattle.model.specs.EdgeCrossings.{edge_crossings_of, crossing_table};
ghost use Rattle.laws.specs.Buffers.Writing.{Written};
ghost use Rattle.edge_crossings.specs.Numbers.{Drawable, place_at, chord_at, number_of, numbers_of, numbered};
ghost use Rattle.laws.specs.Sums.Numbers.{Bounded};

use buffer_checks::write_refusal;
use chords::chord_crossings;
use edge_list::{edge_count, put_edges};
use model::{Layout, Refusal};
use places::places_of;
use validity::is_valid;

// Fills the start of the table with a number for each edge, in the sequence of a written chart, and
// answers how many edges there are. The entries beyond them keep their contents.
pub fn edge_crossings(l: Layout, table: &mut [u64]) -> Result<usize, Refusal>
    ensures value { as_edges result ≡ edge_crossings_of l table.old }
    ensures table_after { table.new ≡ crossing_table l table.old }
{
    let n = l.n;
    let edges = edge_count(n, &l.adjacency) as usize;
    let size = table.len();
    write_refusal(is_valid(l), Ok(()), edges, size, Refusal::ShortTable)?;
    put_numbers(table, n, &l.order, &l.adjacency, &l.weights);
    Ok(edges)
}

// The edges listed, and for each its weight times what the chord between the places of its ends crosses.
fn put_numbers(
    table: &mut [u64],
    n: usize,
    order: &[u8; 64],
    adjacency: &[u64; 64],
    weights: &[u8; 4096],
) -> usize
    requires { Drawable n order.now adjacency.now weights.now × (length (edges n adjacency.now) ≤ length table.old) }
    ensures { Written table.old 0 (numbers_of n order.now adjacency.now weights.now) table.new result }
{
    let chords = chord_crossings(n, order, weights);
    let places = places_of(n, order);
    // room for the edges of 64 vertices, as many as there may be: the library has no heap
    let mut ends = [0u8; 4032];
    let end = put_edges(&mut ends, 0, n, adjacency);
    put_each(table, &chords, &places, weights, &ends, end / 2)
}

// A number for each of the listed edges. Answers how many they are.
fn put_each(
    table: &mut [u64],
    chords: &[u32; 4096],
    places: &[u8; 64],
    weights: &[u8; 4096],
    ends: &[u8],
    count: usize,
) -> usize
    requires { (2 * count ≤ length ends.now) × (count ≤ length table.old) }
    ensures { let all = numbered chords.now places.now weights.now ends.now count in
        Written table.old 0 all table.new result }
{
    for i in 0..count {
        table[i] = number_of(chords, places, weights, ends[2 * i], ends[2 * i + 1]);
    }
    count
}

// The crossings of the edge with these ends: its weight with that of each edge that it crosses.
#[tactic(auto, unfolding(crate::specs::Numbers::number_of))]
fn number_of(
    chords: &[u32; 4096],
    places: &[u8; 64],
    weights: &[u8; 4096],
    low: u8,
    high: u8,
) -> u64
    ensures { result ≡ number_of chords.now places.now weights.now low high }
{
    let weight = weights::weight_at(weights, low as usize, high as usize);
    let crossed = chord_at(chords, places, low, high);
    u64::from(weight) * u64::from(crossed)
}

// The weight of the edges that a chord between two vertices crosses.
#[tactic(auto, unfolding(crate::specs::Numbers::chord_at))]
fn chord_at(chords: &[u32; 4096], places: &[u8; 64], low: u8, high: u8) -> u32
    ensures { result ≡ chord_at chords.now places.now low high }
{
    let p = place_at(places, low);
    let q = place_at(places, high);
    chords[p.min(q) * 64 + p.max(q)]
}

// The place of a vertex; vertices and places are taken modulo 64.
#[tactic(auto, unfolding(crate::specs::Numbers::place_at))]
fn place_at(places: &[u8; 64], v: u8) -> usize
    ensures { Bounded (place_at places.now v) 63 result }
{
    let u = (v % 64) as usize;
    (places[u] % 64) as usize
}
