// The checks that both calls share.
ghost use Rattle.std.specs.Prelude.{◌≡◌, [], ◌∷◌};
ghost use Rattle.model.specs.Answers.{refusal_number};
ghost use Rattle.model.specs.Checks.{refusal, is_valid, buffer_fits};
ghost use Rattle.model.specs.SmallOrders.{is_small};

use model::{Layout, Refusal};
use validity::check_valid;

// Is the layout valid and small?
#[tactic(auto, unfolding(model::specs::Answers::refusal_number, model::specs::Answers::number, model::specs::Checks::refusal, model::specs::Checks::is_valid, model::specs::SmallOrders::is_small))]
pub(crate) fn check_small(l: Layout) -> Result<(), Refusal>
    ensures { refusal_number result ≡ refusal (is_valid l ∷ is_small l ∷ []) }
{
    check_valid(l)?;
    if 8 < l.n {
        return Err(Refusal::NotSmall);
    }
    Ok(())
}

// Has a buffer of size bytes room for an order?
#[tactic(auto, unfolding(model::specs::Answers::refusal_number, model::specs::Answers::number, model::specs::Checks::refusal, model::specs::Checks::buffer_fits))]
pub(crate) fn check_room(l: Layout, size: usize) -> Result<(), Refusal>
    ensures { refusal_number result ≡ refusal (buffer_fits l size ∷ []) }
{
    if size < l.n {
        return Err(Refusal::ShortOrder);
    }
    Ok(())
}
