// A layout changed, and its count carried on.
#![tactic(auto)]

ghost use Rattle.std.specs.Prelude.{◌≡◌};
ghost use Rattle.model.specs.Layouts.{carried as carried_count};
ghost use Rattle.laws.specs.Layouts.Recount.{carried_to, recounted as recounted_layout};

use counting::crossings_of;
use model::Layout;

// The count plus the crossings after, less the crossings before, modulo 2^64, whatever count came
// in.
#[tactic(auto, unfolding(model::specs::Layouts::carried))]
pub fn carried(count: u64, before: u64, after: u64) -> u64
    ensures { result ≡ carried_count count before after }
{
    count.wrapping_add(after).wrapping_sub(before)
}

// The layout next, to which l was changed, and whose crossings are known: those of l are counted. What
// next counts is not looked at.
#[tactic(auto, unfolding(laws::specs::Layouts::Recount::carried_to))]
pub fn carried_to(l: Layout, next: Layout, after: u64) -> Layout
    ensures { result ≡ carried_to l next.n next.order next.adjacency next.weights after }
{
    let before = crossings_of(l);
    Layout {
        count: carried(l.count, before, after),
        ..next
    }
}

// Both crossings counted: for a call that knows neither.
#[tactic(auto, unfolding(laws::specs::Layouts::Recount::recounted))]
pub fn recounted(l: Layout, next: Layout) -> Layout
    ensures { result ≡ recounted_layout l next.n next.order next.adjacency next.weights }
{
    let after = crossings_of(next);
    carried_to(l, next, after)
}
