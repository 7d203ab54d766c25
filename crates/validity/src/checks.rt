// The checks (document 01: questions) of calls that name vertices or a limit.
ghost use Rattle.std.specs.Prelude.{◌≡◌, [], ◌∷◌};
ghost use Rattle.model.specs.Answers.{refusal_number};
ghost use Rattle.model.specs.Checks.{refusal, is_valid, is_vertex};
ghost use Rattle.model.specs.Edits.{move_checks};
ghost use Rattle.model.specs.Sifting.{settle_checks};

use super::validity::is_valid;
use model::{Layout, Refusal};

// Is the layout valid?
#[tactic(auto, unfolding(model::specs::Answers::refusal_number, model::specs::Answers::number, model::specs::Checks::refusal, model::specs::Checks::is_valid))]
pub fn check_valid(l: Layout) -> Result<(), Refusal>
    ensures { refusal_number result ≡ refusal (is_valid l ∷ []) }
{
    if is_valid(l) {
        Ok(())
    } else {
        Err(Refusal::NotValid)
    }
}

// Is the layout valid, and is the vertex its own?
#[tactic(auto, unfolding(model::specs::Answers::refusal_number, model::specs::Answers::number, model::specs::Checks::refusal, model::specs::Checks::is_valid, model::specs::Checks::is_vertex))]
pub fn check_vertex(l: Layout, v: usize) -> Result<(), Refusal>
    ensures { refusal_number result ≡ refusal (is_valid l ∷ is_vertex l v ∷ []) }
{
    check_valid(l)?;
    if l.n <= v {
        return Err(Refusal::NoVertex);
    }
    Ok(())
}

// Is the layout valid, are both vertices its own, and do they differ?
#[tactic(auto, unfolding(model::specs::Answers::refusal_number, model::specs::Answers::number, model::specs::Checks::refusal, model::specs::Checks::is_valid, model::specs::Checks::is_vertex, model::specs::Checks::differ, model::specs::Edits::move_checks))]
pub fn check_pair(l: Layout, a: usize, b: usize) -> Result<(), Refusal>
    ensures { refusal_number result ≡ refusal (move_checks l a b) }
{
    check_vertex(l, a)?;
    if l.n <= b {
        return Err(Refusal::NoVertex);
    }
    if a == b {
        return Err(Refusal::SameVertex);
    }
    Ok(())
}

// Is the layout valid, and the limit from 1 to 1000?
#[tactic(auto, unfolding(model::specs::Answers::refusal_number, model::specs::Answers::number, model::specs::Checks::refusal, model::specs::Checks::is_valid, model::specs::Checks::limit_fits, model::specs::Sifting::settle_checks))]
pub fn check_limit(l: Layout, limit: u32) -> Result<(), Refusal>
    ensures { refusal_number result ≡ refusal (settle_checks l limit) }
{
    check_valid(l)?;
    if limit < 1 || 1000 < limit {
        return Err(Refusal::WrongLimit);
    }
    Ok(())
}
