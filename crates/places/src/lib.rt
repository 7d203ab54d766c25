// Places of an order: where a vertex stands, where each does, and an entry moved directly behind another.
#![tactic(auto)]

ghost use Rattle.std.specs.Prelude.{◌≡◌, cond, ◌&&◌, ◌≤◌, ◌<◌, take, ltb};
ghost use Rattle.model.specs.Lists.{place};
ghost use Rattle.laws.specs.Orders.Permutations.{Permutation};
ghost use Rattle.laws.specs.Orders.Moves.{moved_from};
ghost use Rattle.places.specs.AllPlaces.{PlacesOf};
ghost use Rattle.places.specs.MovedPlaces.{shifted};
ghost use Rattle.laws.specs.Sums.Numbers.{Bounded};

// The place of a vertex in an order, or the order's length where it has none.
pub fn place_of(order: &[u8], v: usize) -> usize
    ensures { result ≡ place order.now v }
{
    order
        .iter()
        .position(|u| usize::from(*u) == v)
        .unwrap_or(order.len())
}

// The place of each vertex of an order of n. Of bytes that hold no order nothing is said.
pub fn places_of(n: usize, order: &[u8; 64]) -> [u8; 64]
    ensures { n ≤ 64 → Permutation n (take n order.now) → PlacesOf n order.now result }
{
    let mut places = [0u8; 64];
    if 64 < n {
        return places;
    }
    for (p, v) in order[..n].iter().enumerate() {
        places[usize::from(*v % 64)] = p as u8;
    }
    places
}

// The entries after the one at place p was taken out and put directly behind the one at place q.
// A place of 64 or above changes nothing.
#[tactic(auto, using(std::proofs::lemmas::Bool::Decides::nat_tests))]
pub fn moved(order: [u8; 64], p: usize, q: usize) -> [u8; 64]
    ensures { result ≡ cond (ltb p 64 && ltb q 64) (shifted order p q) order }
{
    if 64 <= p || 64 <= q {
        return order;
    }
    let mut next = order;
    for (i, entry) in next.iter_mut().enumerate() {
        *entry = order[moved_from(p, q, i)];
    }
    next
}

// The place before the move of the entry that stands at place i after it.
fn moved_from(p: usize, q: usize, i: usize) -> usize
    requires { (p < 64) × (q < 64) × (i < 64) }
    ensures { Bounded (moved_from p q i) 63 result }
{
    if q < p {
        if i <= q {
            i
        } else if i == q + 1 {
            p
        } else if i <= p {
            i - 1
        } else {
            i
        }
    } else if i < p {
        i
    } else if i < q {
        i + 1
    } else if i == q {
        p
    } else {
        i
    }
}
