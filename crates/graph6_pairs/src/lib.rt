// The data part of a graph in graph6: a bit for each pair of vertices, by rising higher end. An n above
// 64 is taken as 64.
#![tactic(auto)]

ghost use Rattle.std.specs.Prelude.{◌≡◌, [], ◌++◌, suc, ◌+◌, ◌%◌, ◌<◌, min, length, drop, eqb};
ghost use Rattle.model.specs.Lists.{every};
ghost use Rattle.model.specs.Charts.{asked, answer};
ghost use Rattle.model.specs.Graph6.{bytes_for, pairs_by_higher, unpacked, data_checks, padding_checks, graph6_edges};
ghost use Rattle.laws.specs.Charts.Words.{adjacency_of};
ghost use Rattle.graph6_pairs.specs.Questions.{asks};
ghost use Rattle.laws.specs.Crossings.Bound.{most_edges};
ghost use Rattle.laws.specs.Sums.Numbers.{Bounded};

use graph6_bits::{all_hold_six, bit_at};
use model::Refusal;

// How many pairs there are.
pub fn pair_count(n: usize) -> usize
    ensures { Bounded (length (pairs_by_higher (min n 64))) most_edges result }
{
    let few = n.min(64);
    (few * few - few) / 2
}

// The place of the pair a-b, whose higher end is b, among all pairs: behind those of lower vertices. a is
// taken modulo 64.
pub fn pair_place(a: usize, b: usize) -> usize
    ensures { result ≡ length (pairs_by_higher (min b 64)) + a % 64 }
{
    pair_count(b) + a % 64
}

// How many bytes the bits of all pairs take, six to a byte.
pub fn data_length(n: usize) -> usize
    ensures { result ≡ bytes_for (length (pairs_by_higher (min n 64))) }
{
    (pair_count(n) + 5) / 6
}

// Questions 21 and 22: as many bytes as the pairs take, six bits each; and no bit is set behind those
// of the pairs.
pub fn ask_bits(n: usize, bytes: &[u8]) -> Result<(), Refusal>
    ensures { asked result ≡ answer (data_checks (min n 64) bytes.now ++ padding_checks (min n 64) bytes.now) [] }
{
    if bytes.len() != data_length(n) {
        Err(Refusal::WrongBits)
    } else {
        answer_of(all_hold_six(bytes), is_padded(n, bytes))
    }
}

#[tactic(auto, unfolding(model::specs::Charts::asked, model::specs::Charts::answer, model::specs::Checks::checked, model::specs::Checks::by_refusal, model::specs::Checks::refusal, model::specs::Answers::number))]
fn answer_of(six: bool, padded: bool) -> Result<(), Refusal>
    ensures { asked result ≡ answer (asks six padded) [] }
{
    if !six {
        return Err(Refusal::WrongBits);
    }
    if !padded {
        return Err(Refusal::PaddingSet);
    }
    Ok(())
}

// In as many bytes as the pairs take: is no bit set behind those of the pairs?
fn is_padded(n: usize, bytes: &[u8]) -> bool
    ensures { let pairs = length (pairs_by_higher (min n 64)) in
        (length bytes.now ≡ bytes_for pairs → result ≡ every (eqb 0) (drop pairs (unpacked bytes.now))) }
{
    (pair_count(n)..6 * data_length(n)).all(|k| !bit_at(bytes, k))
}

// The adjacency words of the pairs whose bit is set.
pub fn join_pairs(n: usize, bytes: &[u8]) -> [u64; 64]
    ensures { result ≡ adjacency_of (graph6_edges (min n 64) bytes.now) }
{
    let mut adjacency = [0; 64];
    for b in 0..n.min(64) {
        join_lower(b, bytes, &mut adjacency);
    }
    adjacency
}

// The pairs whose higher end is b, behind those of lower vertices.
fn join_lower(b: usize, bytes: &[u8], adjacency: &mut [u64; 64])
    requires { (b < 64) × (adjacency.old ≡ adjacency_of (graph6_edges b bytes.now)) }
    ensures { adjacency.new ≡ adjacency_of (graph6_edges (suc b) bytes.now) }
{
    for a in 0..b {
        if bit_at(bytes, pair_place(a, b)) {
            ends::join(adjacency, a, b);
        }
    }
}
