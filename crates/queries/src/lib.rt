// The calls that only read: the carried count, and the order into a lent buffer.
#![tactic(auto)]

ghost use Rattle.std.specs.Prelude.{◌≡◌};
ghost use Rattle.model.specs.Answers.{refusal_number, as_counted};
ghost use Rattle.model.specs.Reading.{count_of, order_refusal, order_bytes};

use model::{Layout, Refusal};
use validity::check_valid;

#[tactic(auto, unfolding(model::specs::Answers::refusal_number, model::specs::Answers::told_by, model::specs::Answers::as_counted, model::specs::Answers::number, model::specs::Checks::refusal, model::specs::Checks::by_refusal, model::specs::Checks::checked, model::specs::Checks::is_valid, model::specs::Reading::count_of))]
pub fn count(l: Layout) -> Result<u64, Refusal>
    ensures { as_counted result ≡ count_of l }
{
    check_valid(l).and(Ok(l.count))
}

// Writes the order to the first n bytes of the buffer.
#[tactic(auto, unfolding(model::specs::Answers::refusal_number, model::specs::Answers::number, model::specs::Checks::refusal, model::specs::Checks::by_refusal, model::specs::Checks::checked, model::specs::Checks::is_valid, model::specs::Checks::buffer_fits, model::specs::Layouts::vertex_order, model::specs::Reading::order_checks, model::specs::Reading::order_refusal, model::specs::Reading::order_bytes))]
pub fn order(l: Layout, buffer: &mut [u8]) -> Result<(), Refusal>
    ensures value { refusal_number result ≡ order_refusal l buffer.old }
    ensures buffer_after { buffer.new ≡ order_bytes l buffer.old }
{
    check_valid(l)?;
    let n = l.n;
    if buffer.len() < n {
        return Err(Refusal::ShortOrder);
    }
    buffer[..n].copy_from_slice(&l.order[..n]);
    Ok(())
}
