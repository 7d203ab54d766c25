// Are 64 adjacency (neighbour) words those of a graph on n vertices? One function for each clause of
// validity (document 01: whole) on the words but symmetry, which weights that fit bring along. For any
// words at all.
ghost use Rattle.std.specs.Prelude.{◌≡◌, ◌&&◌, ◌≤◌, leb};
ghost use Rattle.model.specs.Layouts.{zero_from, loopless as loopless_words, bits_below};

pub fn is_bounded(n: usize, adjacency: &[u64; 64]) -> bool
    ensures { let a = adjacency.now in result ≡ (leb n 64 && loopless_words n a && bits_below n a && zero_from n a) }
{
    n <= 64 && loopless(n, adjacency) && bits_below(n, adjacency) && zero_from(n, adjacency)
}

// Are the words of vertices that are not there 0?
fn zero_from(n: usize, adjacency: &[u64; 64]) -> bool
    ensures { result ≡ zero_from n adjacency.now }
{
    adjacency.iter().skip(n).all(|word| *word == 0)
}

// Has no word a bit at or above n?
fn bits_below(n: usize, adjacency: &[u64; 64]) -> bool
    requires { n ≤ 64 }
    ensures { result ≡ bits_below n adjacency.now }
{
    let most = words::low_bits(n);
    adjacency.iter().all(|word| *word <= most)
}

// Is no vertex joined to itself?
fn loopless(n: usize, adjacency: &[u64; 64]) -> bool
    requires { n ≤ 64 }
    ensures { result ≡ loopless_words n adjacency.now }
{
    adjacency[..n]
        .iter()
        .enumerate()
        .all(|(v, word)| !words::is_set(*word, v))
}
