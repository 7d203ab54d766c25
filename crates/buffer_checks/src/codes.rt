// The checks with codes as numbers.
ghost use Rattle.std.specs.Prelude.{◌≡◌};
ghost use Rattle.model.specs.Checks.{refusal};
ghost use Rattle.buffer_checks.specs.Answers.{asks};

// What write_refusal asks, for any codes: own is the code of the first of the format's own checks that
// fails, or 0, and short that of too little room. 0 where all pass.
#[tactic(auto, unfolding(model::specs::Checks::refusal))]
pub fn write_code(valid: bool, own: u8, length: usize, size: usize, short: u8) -> u8
    ensures { result ≡ refusal (asks short valid own length size) }
{
    if !valid {
        return 11;
    }
    if own != 0 {
        return own;
    }
    if size < length {
        return short;
    }
    0
}
