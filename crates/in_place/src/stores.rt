// What a call's result does to a lent layout. Each answers the rest of the result.
ghost use Rattle.std.specs.Prelude.{◌≡◌};
ghost use Rattle.model.specs.Answers.{refusal_number, as_changed};
ghost use Rattle.model.specs.Charts.{as_read};
ghost use Rattle.in_place.specs.Stores.{stored, told};

use model::{Layout, Refusal};

// The layout of an accepted call is stored; a refused one leaves the lent layout as it came.
#[tactic(auto, unfolding(crate::specs::Stores::stored, crate::specs::Stores::told))]
pub(crate) fn store<T>(l: &mut Layout, answer: Result<(Layout, T), Refusal>) -> Result<T, Refusal>
    ensures handed_on { result ≡ told answer }
    ensures layout { l.new ≡ stored l.old answer }
{
    let (next, rest) = answer?;
    *l = next;
    Ok(rest)
}

// The same of a call that tells nothing besides: its refusal number.
#[tactic(auto, unfolding(model::specs::Answers::refusal_number, model::specs::Answers::as_changed, model::specs::Answers::told_by))]
pub(crate) fn change(l: &mut Layout, answer: Result<Layout, Refusal>) -> u8
    ensures number { result ≡ refusal_number answer }
    ensures layout { l.new ≡ (as_changed l.old answer).layout }
{
    match answer {
        Ok(next) => {
            *l = next;
            0
        }
        Err(refusal) => refusal.number(),
    }
}

// The layout that was read is stored, the empty one where it is refused.
#[tactic(auto, unfolding(model::specs::Answers::refusal_number, model::specs::Charts::as_read, model::specs::Answers::told_by))]
pub(crate) fn load(l: &mut Layout, read: Result<Layout, Refusal>) -> u8
    ensures number { result ≡ refusal_number read }
    ensures layout { l.new ≡ (as_read read).layout }
{
    match read {
        Ok(next) => {
            *l = next;
            0
        }
        Err(refusal) => {
            *l = layout::empty();
            refusal.number()
        }
    }
}
