// Each call's answer as an outcome.
ghost use Rattle.std.specs.Prelude.{◌≡◌, get_or};
ghost use Rattle.model.specs.Answers.{number, as_added, as_changed, as_appended, as_sifted, as_rounded, as_converged};
ghost use Rattle.model.specs.Histories.{outcome, of_added, of_changed, of_appended, of_sifted, of_rounded, of_converged};

use model::{ConvergeSummary, Layout, Outcome, Refusal, RoundSummary, SiftSummary};

#[tactic(auto, unfolding(model::specs::Answers::as_added, model::specs::Answers::told_by))]
pub(crate) fn of_added(l: Layout, answer: Result<(Layout, usize), Refusal>) -> Outcome
    ensures { result ≡ of_added (as_added l answer) }
{
    match answer {
        Ok((next, vertex)) => outcome(next, [vertex as u64, 0, 0, 0]),
        Err(refusal) => refused(l, refusal),
    }
}

#[tactic(auto, unfolding(model::specs::Answers::as_changed, model::specs::Answers::told_by))]
pub(crate) fn of_changed(l: Layout, answer: Result<Layout, Refusal>) -> Outcome
    ensures { result ≡ of_changed (as_changed l answer) }
{
    match answer {
        Ok(next) => outcome(next, [0; 4]),
        Err(refusal) => refused(l, refusal),
    }
}

#[tactic(auto, unfolding(model::specs::Answers::as_appended, model::specs::Answers::told_by))]
pub(crate) fn of_appended(l: Layout, answer: Result<(Layout, u64), Refusal>) -> Outcome
    ensures { result ≡ of_appended (as_appended l answer) }
{
    match answer {
        Ok((next, tally)) => outcome(next, [tally, 0, 0, 0]),
        Err(refusal) => refused(l, refusal),
    }
}

#[tactic(auto, unfolding(model::specs::Answers::as_sifted, model::specs::Answers::told_by))]
pub(crate) fn of_sifted(l: Layout, answer: Result<(Layout, SiftSummary), Refusal>) -> Outcome
    ensures { result ≡ of_sifted (as_sifted l answer) }
{
    match answer {
        Ok((next, s)) => outcome(next, [s.reduction, s.optima as u64, 0, 0]),
        Err(refusal) => refused(l, refusal),
    }
}

#[tactic(auto, unfolding(model::specs::Answers::as_rounded, model::specs::Answers::told_by))]
pub(crate) fn of_rounded(l: Layout, answer: Result<(Layout, RoundSummary), Refusal>) -> Outcome
    ensures { result ≡ of_rounded (as_rounded l answer) }
{
    match answer {
        Ok((next, s)) => outcome(next, [s.reduction, s.moved as u64, s.optima as u64, 0]),
        Err(refusal) => refused(l, refusal),
    }
}

#[tactic(auto, unfolding(model::specs::Answers::as_converged, model::specs::Answers::told_by, model::specs::Lists::one))]
pub(crate) fn of_converged(l: Layout, answer: Result<(Layout, ConvergeSummary), Refusal>) -> Outcome
    ensures { result ≡ of_converged (as_converged l answer) }
{
    match answer {
        Ok((next, s)) => outcome(
            next,
            [
                s.reduction,
                s.rounds as u64,
                s.converged as u64,
                s.optima as u64,
            ],
        ),
        Err(refusal) => refused(l, refusal),
    }
}

// Of an accepted call, with the further numbers of its answer.
fn outcome(layout: Layout, numbers: [u64; 4]) -> Outcome
    ensures { result ≡ outcome 0 layout (get_or numbers 0 0) (get_or numbers 1 0) (get_or numbers 2 0) (get_or numbers 3 0) }
{
    let [first, second, third, fourth] = numbers;
    Outcome {
        refusal: 0,
        layout,
        first,
        second,
        third,
        fourth,
    }
}

// Of a refused call on a layout.
fn refused(layout: Layout, refusal: Refusal) -> Outcome
    ensures { result ≡ outcome (number refusal) layout 0 0 0 0 }
{
    Outcome {
        refusal: refusal.number(),
        layout,
        first: 0,
        second: 0,
        third: 0,
        fourth: 0,
    }
}
