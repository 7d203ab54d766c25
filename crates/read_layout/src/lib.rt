// What the readers of charts and of graph6 share: the layout that they give where all have passed.
#![tactic(auto)]

ghost use Rattle.std.specs.Prelude.{◌≡◌};
ghost use Rattle.laws.specs.Charts.Passes.{counted_layout};

use model::Layout;

// The layout with its crossings counted.
pub fn counted(n: usize, order: [u8; 64], adjacency: [u64; 64], weights: [u8; 4096]) -> Layout
    ensures { result ≡ counted_layout n order adjacency weights }
{
    let count = counting::count_crossings(n, &order, &weights);
    Layout {
        n,
        order,
        adjacency,
        weights,
        count,
    }
}
