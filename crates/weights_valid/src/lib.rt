// Do the words and a table of weights (document 02, Note 8) make a graph? For any bytes at all. The weight
// of u towards v stands at 64 * u + v.
#![tactic(auto)]

ghost use Rattle.std.specs.Prelude.{◌≡◌, ◌&&◌, ◌≤◌, ◌<◌, eqb, leb, ltb, length};
ghost use Rattle.model.specs.Lists.{one};
ghost use Rattle.model.specs.Layouts.{symmetric, loopless, bits_below, zero_from, weights_fit};
ghost use Rattle.weights_valid.specs.Pairs.{even_below, even_row};
ghost use Rattle.weights_valid.specs.Bytes.{on_edges, group_fits, bits_fit, byte_of, Few, RowAdded};

// Are the words those of a graph, and do the weights fit them? Weights that fit have symmetric words, so
// these are not asked for.
#[tactic(auto, using(crate::specs::Fitting::bounded_few, crate::specs::Fitting::weighted_graph))]
pub fn is_weighted_graph(n: usize, adjacency: &[u64; 64], weights: &[u8; 4096]) -> bool
    ensures { let a = adjacency.now in
        result ≡ (leb n 64 && symmetric n a && loopless n a && bits_below n a && zero_from n a && weights_fit n a weights.now) }
{
    graphs::is_bounded(n, adjacency) && even(n, weights) && on_edges(adjacency, weights)
}

// Does each two of the vertices have equal weights both ways round?
fn even(n: usize, weights: &[u8; 4096]) -> bool
    requires { n ≤ 64 }
    ensures { result ≡ even_below n weights.now }
{
    for u in 0..n {
        if !even_row(weights, u) {
            return false;
        }
    }
    true
}

// The same of u with each vertex up to u itself. No branch on what is read, and 32 bits for what was
// found: half the time of an early return, three quarters of that with 8.
fn even_row(weights: &[u8; 4096], u: usize) -> bool
    requires { u < 64 }
    ensures { result ≡ even_row weights.now u }
{
    let mut differences: u32 = 0;
    for v in 0..u + 1 {
        differences = joined(differences, weights[64 * u + v], weights[64 * v + u]);
    }
    differences == 0
}

// 0 where there was no difference so far, and a and b do not differ. That they are bytes is told along.
fn joined(differences: u32, a: u8, b: u8) -> u32
    ensures { eqb result 0 ≡ (eqb differences 0 && (eqb a b && leb a 255)) }
{
    differences | u32::from(a ^ b)
}

// Is a weight 0 exactly where the word of its second vertex has no bit for the first?
fn on_edges(adjacency: &[u64; 64], weights: &[u8; 4096]) -> bool
    ensures { result ≡ on_edges adjacency.now weights.now }
{
    (0..8).all(|k| group_fits(adjacency, weights, k))
}

// The same of rows 8 * k to 8 * k + 7. Of each column the eight weights become the bits of a byte, 64
// columns side by side, from the last row down.
fn group_fits(adjacency: &[u64; 64], weights: &[u8; 4096], k: usize) -> bool
    requires { k < 8 }
    ensures { result ≡ group_fits adjacency.now weights.now k }
{
    let mut bits = [0u8; 64];
    for j in (0..8).rev() {
        add_row(&mut bits, weights, 8 * k + j);
    }
    bits_fit(adjacency, &bits, k)
}

// Row u becomes the lowest bits.
fn add_row(bits: &mut [u8; 64], weights: &[u8; 4096], u: usize)
    requires { (u < 64) × Few bits.old }
    ensures { RowAdded weights.now u bits.old bits.new }
{
    for (v, byte) in bits.iter_mut().enumerate() {
        *byte = 2 * *byte + not_zero(weights[64 * u + v]);
    }
}

#[tactic(auto, unfolding(model::specs::Lists::one))]
fn not_zero(weight: u8) -> u8
    ensures { result ≡ one (ltb 0 weight) }
{
    u8::from(0 < weight)
}

// Is each column's byte that of the vertex's word? No branch on what is read, as in even_row.
fn bits_fit(adjacency: &[u64; 64], bits: &[u8; 64], k: usize) -> bool
    requires { k < 8 }
    ensures { result ≡ bits_fit adjacency.now bits.now k }
{
    let mut differences: u32 = 0;
    for v in 0..64 {
        differences = joined(differences, byte_of(adjacency[v], k), bits[v]);
    }
    differences == 0
}

// Byte k of a word.
fn byte_of(word: u64, k: usize) -> u8
    requires { k < 8 }
    ensures { result ≡ byte_of word k }
{
    let byte = (word >> (8 * k)) % 256;
    byte as u8
}
