// Is a layout valid (document 01: is the ring whole)? For any bytes at all.
ghost use Rattle.std.specs.Prelude.{◌≡◌};
ghost use Rattle.model.specs.Layouts.{valid};

use model::Layout;

#[tactic(auto, unfolding(model::specs::Layouts::valid, model::specs::Layouts::vertex_order))]
pub fn is_valid(l: Layout) -> bool
    ensures { result ≡ valid l }
{
    orders::order_valid(l.n, &l.order)
        && weights_valid::is_weighted_graph(l.n, &l.adjacency, &l.weights)
}
