// The order with a given index.
ghost use Rattle.std.specs.Prelude.{◌≡◌, [], ◌∷◌};
ghost use Rattle.model.specs.Answers.{refusal_number};
ghost use Rattle.model.specs.Checks.{refusal, is_valid, buffer_fits};
ghost use Rattle.model.specs.SmallOrders.{is_small, is_listed, order_at_refusal, order_at_bytes};

use super::checks::{check_room, check_small};
use super::order_buffer::put_order;
use model::{Layout, Refusal};
use small_order::{number_of_orders, order_of};

// Writes the order with this index in the list of all orders to the first n bytes of the buffer.
pub fn order_at(l: Layout, index: usize, buffer: &mut [u8]) -> Result<(), Refusal>
    ensures value { refusal_number result ≡ order_at_refusal l index buffer.old }
    ensures buffer_after { buffer.new ≡ order_at_bytes l index buffer.old }
{
    check_order(l, index, buffer.len())?;
    put_order(order_of(l.n, index), l.n, buffer);
    Ok(())
}

// Is the layout valid and small, is there an order with the index, and has a buffer of size bytes room for
// it?
#[tactic(auto, unfolding(model::specs::Answers::refusal_number, model::specs::Answers::number, model::specs::Checks::refusal, model::specs::Checks::is_valid, model::specs::Checks::buffer_fits, model::specs::SmallOrders::is_small, model::specs::SmallOrders::is_listed))]
fn check_order(l: Layout, index: usize, size: usize) -> Result<(), Refusal>
    ensures { refusal_number result ≡ refusal (is_valid l ∷ is_small l ∷ is_listed l index ∷ buffer_fits l size ∷ []) }
{
    check_small(l)?;
    if number_of_orders(l.n) <= index {
        return Err(Refusal::NoSuchOrder);
    }
    check_room(l, size)
}
