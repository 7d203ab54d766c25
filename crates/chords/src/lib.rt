// What a chord between each two places of an order crosses, each edge by its weight (document 02,
// Notes 7 and 8). Each place tells the number from that of the place before it: the weights towards
// the vertices passed grow by a row a step.
#![tactic(auto)]

ghost use Rattle.std.specs.Prelude.{◌<◌, ◌≤◌};
ghost use Rattle.laws.specs.Tables.Rows.{RowsOf};
ghost use Rattle.laws.specs.Tables.Drawn.{Weighted};
ghost use Rattle.chords.specs.Chords.{ChordsOf, RowOf, NextChord};

// A chord: the weight of the edges that it crosses, and that of all edges from between its places or
// from its end to beyond them.
#[derive(Clone, Copy)]
struct Chord {
    crossed: u32,
    outgoing: u32,
}

// The number for places i < k stands at i * 64 + k. Of bytes that are no valid layout nothing is said.
pub fn chord_crossings(n: usize, order: &[u8; 64], weights: &[u8; 4096]) -> [u32; 4096]
    ensures { Weighted n order.now weights.now → ChordsOf n order.now weights.now result }
{
    let mut chords = [0u32; 4096];
    if 64 < n {
        return chords;
    }
    let rows = weights::row_weights(weights);
    for i in 0..n {
        chord_row(&mut chords, n, order, weights, &rows, i);
    }
    chords
}

// The chords from place i to every later one, with the weights of all vertices given.
fn chord_row(
    chords: &mut [u32; 4096],
    n: usize,
    order: &[u8; 64],
    weights: &[u8; 4096],
    rows: &[u16; 64],
    i: usize,
)
    requires { (n ≤ 64) × (i < n) × (RowsOf weights.now rows.now) }
    ensures { RowOf n order.now weights.now i chords.old chords.new }
{
    let first = (order[i] % 64) as usize;
    let mut passed = [0u16; 64];
    let mut outgoing = 0;
    for k in i + 1..n {
        let v = (order[k] % 64) as usize;
        let start = weights::weight_at(weights, v, first);
        let chord = next_chord(outgoing, passed[v], rows[v], start);
        chords[i * 64 + k] = chord.crossed;
        outgoing = chord.outgoing;
        weights::add_row(&mut passed, weights, v);
    }
}

// The chord to the next vertex, of which given are its weight towards those passed, its weight, and its
// weight towards the chord's start: the chord crosses the outgoing edges that do not end at it.
fn next_chord(outgoing: u32, ending: u16, row: u16, start: u32) -> Chord
    ensures { NextChord outgoing ending row start result }
{
    let crossed = outgoing.wrapping_sub(u32::from(ending));
    let leaving = u32::from(row)
        .wrapping_sub(u32::from(ending))
        .wrapping_sub(start);
    Chord {
        crossed,
        outgoing: crossed.wrapping_add(leaving),
    }
}
