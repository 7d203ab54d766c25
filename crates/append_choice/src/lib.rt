// The vertex that greedy append (document 01: lay) places next.
#![tactic(auto)]

ghost use Rattle.std.specs.Prelude.{◌≡◌, ◌<◌, cond, leb, MatchOption};
ghost use Rattle.append_choice.specs.Choices.{comes_before, preferred_in, candidate_if, best_below};

// A candidate, with its placed and its unplaced neighbours.
#[derive(Clone, Copy)]
pub struct Choice {
    pub vertex: usize,
    pub placed: u32,
    pub unplaced: u32,
}

// Of the unplaced vertices with edges that with most placed neighbours; among those, fewest unplaced
// neighbours; among those, the lowest number. The neighbours are counted in the adjacency word,
// under the set of the placed vertices and under its complement. None where there is no such vertex,
// and for an n above 64.
pub fn next_vertex(n: usize, adjacency: &[u64; 64], placed: u64) -> Option<usize>
    ensures { let chosen = cond (leb n 64) (best_below n adjacency.now placed n).vertex n in
        MatchOption result (n ≡ chosen) (λ v. (v ≡ chosen) × (v < n)) }
{
    if 64 < n {
        return None;
    }
    let mut best = None;
    for v in 0..n {
        if let Some(other) = candidate(v, adjacency[v], placed) {
            best = Some(preferred(best, other));
        }
    }
    best.map(|choice| choice.vertex)
}

// v, if it has edges and is not placed.
#[tactic(auto, unfolding(crate::specs::Choices::candidate_if, crate::specs::Choices::candidate, crate::specs::Choices::complement))]
fn candidate(v: usize, word: u64, placed: u64) -> Option<Choice>
    ensures { result ≡ candidate_if v word placed }
{
    if word == 0 || words::is_set(placed, v) {
        return None;
    }
    Some(Choice {
        vertex: v,
        placed: words::count(word, placed),
        unplaced: words::count(word, !placed),
    })
}

// The other where there is none so far, or it comes before the best so far.
#[tactic(auto, unfolding(crate::specs::Choices::preferred_in, crate::specs::Choices::preferred_of))]
fn preferred(best: Option<Choice>, other: Choice) -> Choice
    ensures { result ≡ preferred_in best other }
{
    match best {
        Some(choice) if !other.comes_before(choice) => choice,
        _ => other,
    }
}

impl Choice {
    // More placed neighbours, or as many and fewer unplaced ones.
    #[tactic(auto, unfolding(crate::specs::Choices::comes_before))]
    fn comes_before(self, other: Choice) -> bool
        ensures { result ≡ comes_before self other }
    {
        other.placed < self.placed || other.placed == self.placed && self.unplaced < other.unplaced
    }
}
