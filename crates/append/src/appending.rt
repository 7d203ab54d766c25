// The call (document 01: lay).
ghost use Rattle.std.specs.Prelude.{◌≡◌, ◌<◌, T, Ok};
ghost use Rattle.model.specs.Answers.{as_appended};
ghost use Rattle.model.specs.Layouts.{weight, valid};
ghost use Rattle.model.specs.GreedyAppend.{place_all, lay_answer, lay_of};

use super::steps::place_linked;
use carrying::carried_to;
use model::{Layout, Refusal};
use validity::check_vertex;

pub fn greedy_append(l: Layout, s: usize) -> Result<(Layout, u64), Refusal>
    ensures { as_appended l result ≡ lay_of l s }
{
    check_vertex(l, s)?;
    Ok(append_from(l, s))
}

// A call whose checks have passed.
fn append_from(l: Layout, s: usize) -> (Layout, u64)
    requires { T (valid l) × (s < l.n) }
    ensures { as_appended l (Ok result) ≡ lay_answer l (place_all l.n l.adjacency (weight l) s) }
{
    // those with edges, and then the rest: the isolated ones (document 02, Note 2: unlinked devices)
    let linked = place_linked(l.n, &l.adjacency, &l.weights, s);
    let mut line = linked.line;
    line.put_rest(l.n, linked.placed);
    let order = line.written(l.order);
    // the tally is the crossings of the laid order (document 02, Note 6), so that only those before
    // are counted
    let tally = linked.tally;
    let next = carried_to(l, Layout { order, ..l }, tally);
    (next, tally)
}
