// Moving a vertex directly behind another (document 01: move).
ghost use Rattle.std.specs.Prelude.{◌≡◌};
ghost use Rattle.model.specs.Answers.{as_changed};
ghost use Rattle.model.specs.Edits.{move_of};

use carrying::recounted;
use model::{Layout, Refusal};
use places::{moved, place_of};
use validity::check_pair;

pub fn move_after(l: Layout, a: usize, b: usize) -> Result<Layout, Refusal>
    ensures { as_changed l result ≡ move_of l a b }
{
    check_pair(l, a, b)?;
    let p = place_of(&l.order[..l.n], a);
    let q = place_of(&l.order[..l.n], b);
    let order = moved(l.order, p, q);
    Ok(recounted(l, Layout { order, ..l }))
}
