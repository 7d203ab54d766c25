// What the calls share that fill a lent buffer or table from its start: their checks.
#![tactic(auto)]

mod codes;

ghost use Rattle.std.specs.Prelude.{◌≡◌};
ghost use Rattle.model.specs.Answers.{number, refusal_number};
ghost use Rattle.model.specs.Checks.{refusal};
ghost use Rattle.buffer_checks.specs.Answers.{asks};

pub use codes::write_code;
use model::Refusal;

// Is the layout valid, do the format's own checks pass, and has a buffer of size entries room for length
// of them? own is what its own checks answer, and short the refusal of too little room.
#[tactic(auto, unfolding(model::specs::Checks::refusal, model::specs::Answers::refusal_number, model::specs::Answers::number))]
pub fn write_refusal(
    valid: bool,
    own: Result<(), Refusal>,
    length: usize,
    size: usize,
    short: Refusal,
) -> Result<(), Refusal>
    ensures { refusal_number result ≡ refusal (asks (number short) valid (refusal_number own) length size) }
{
    if !valid {
        return Err(Refusal::NotValid);
    }
    own?;
    if size < length {
        return Err(short);
    }
    Ok(())
}
