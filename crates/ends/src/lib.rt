// An edge in the adjacency words of its two ends: put in, and taken out.
#![tactic(auto)]

ghost use Rattle.std.specs.Prelude.{◌≡◌, ◌%◌, ◌<◌, ℕ};
ghost use Rattle.model.specs.Edits.{with_bit, without_bit, at_both_ends};

// The words with the edge a-b in them: a bit in the word of either end. A vertex is taken modulo 64.
pub fn join(adjacency: &mut [u64; 64], a: usize, b: usize)
    ensures { adjacency.new ≡ at_both_ends with_bit adjacency.old (a % 64) (b % 64) }
{
    change(adjacency, a % 64, b % 64, words::set)
}

// The words without the edge a-b.
pub fn part(adjacency: &mut [u64; 64], a: usize, b: usize)
    ensures { adjacency.new ≡ at_both_ends without_bit adjacency.old (a % 64) (b % 64) }
{
    change(adjacency, a % 64, b % 64, words::clear)
}

// In the word of either end the bit of the other one changed, by what f is of a word and a place.
fn change<F: Fn(u64, usize) -> u64>(adjacency: &mut [u64; 64], a: usize, b: usize, bit: F)
    ghost f: { ℕ → ℕ → ℕ }
    requires first { a < 64 }
    requires second { b < 64 }
    requires callable { F.IsAlwaysCallable bit }
    requires computes { (w i r : ℕ) → i < 64 → F.post bit w i r → r ≡ f w i }
    ensures { adjacency.new ≡ at_both_ends f adjacency.old a b }
{
    let at_a = bit(adjacency[a], b);
    let at_b = bit(adjacency[b], a);
    adjacency[a] = at_a;
    adjacency[b] = at_b;
}
