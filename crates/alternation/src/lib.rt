// Do two edges cross? Their four ends differ, and their places alternate round the circle.
#![tactic(auto)]

ghost use Rattle.std.specs.Prelude.{◌≡◌, [], ◌∷◌, eqb};
ghost use Rattle.model.specs.Lists.{no_repeats};
ghost use Rattle.model.specs.Crossings.{between as between_places, alternate as alternate_places};

// Are the four vertices all different?
#[tactic(auto, using(std::proofs::lemmas::Bool::Decides::nat_tests), unfolding(model::specs::Lists::no_repeats, model::specs::Lists::any))]
pub fn differ(a: usize, b: usize, c: usize, d: usize) -> bool
    ensures { result ≡ no_repeats eqb (a ∷ b ∷ c ∷ d ∷ []) }
{
    a != b && a != c && a != d && b != c && b != d && c != d
}

// Of places r and s, does one lie between p and q, and the other not?
pub fn alternate(p: u8, q: u8, r: u8, s: u8) -> bool
    ensures { result ≡ alternate_places p q r s }
{
    between(p, q, r) != between(p, q, s)
}

#[tactic(auto, using(std::proofs::lemmas::Bool::Decides::nat_tests), unfolding(model::specs::Crossings::between))]
fn between(p: u8, q: u8, r: u8) -> bool
    ensures { result ≡ between_places p q r }
{
    (p < r && r < q) || (q < r && r < p)
}
