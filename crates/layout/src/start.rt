// The layout that a list of calls starts from where it starts from no chart.
ghost use Rattle.std.specs.Prelude.{◌≡◌};
ghost use Rattle.model.specs.Layouts.{empty_layout};

use model::Layout;

pub fn empty() -> Layout
    ensures { result ≡ empty_layout }
{
    Layout {
        n: 0,
        order: [0u8; 64],
        adjacency: [0u64; 64],
        weights: [0u8; 4096],
        count: 0,
    }
}
