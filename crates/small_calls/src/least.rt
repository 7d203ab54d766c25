// The least crossings that any order has.
ghost use Rattle.std.specs.Prelude.{◌≡◌, [], ◌∷◌};
ghost use Rattle.model.specs.Answers.{as_least, refusal_number};
ghost use Rattle.model.specs.Checks.{refusal, is_valid, buffer_fits};
ghost use Rattle.model.specs.SmallOrders.{is_small, least_of, least_bytes};

use super::checks::{check_room, check_small};
use super::order_buffer::put_order;
use model::{Layout, Refusal};
use small_search::least_of;

// Answers them, and writes the first order in the list of all orders that has them to the first n bytes of
// the buffer.
pub fn least_crossings(l: Layout, buffer: &mut [u8]) -> Result<u64, Refusal>
    ensures value { as_least result ≡ least_of l buffer.old }
    ensures buffer_after { buffer.new ≡ least_bytes l buffer.old }
{
    check_least(l, buffer.len())?;
    let found = least_of(l.n, &l.weights);
    put_order(found.order, l.n, buffer);
    Ok(found.least)
}

// Is the layout valid and small, and has a buffer of size bytes room for an order?
#[tactic(auto, unfolding(model::specs::Answers::refusal_number, model::specs::Answers::number, model::specs::Checks::refusal, model::specs::Checks::is_valid, model::specs::Checks::buffer_fits, model::specs::SmallOrders::is_small))]
fn check_least(l: Layout, size: usize) -> Result<(), Refusal>
    ensures { refusal_number result ≡ refusal (is_valid l ∷ is_small l ∷ buffer_fits l size ∷ []) }
{
    check_small(l)?;
    check_room(l, size)
}
