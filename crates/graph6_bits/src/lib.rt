// Six bits a byte, as graph6 has them: from the high bit, plus 63.
#![tactic(auto)]

ghost use Rattle.std.specs.Prelude.{◌≡◌, get_or, eqb};
ghost use Rattle.model.specs.Lists.{every};
ghost use Rattle.model.specs.Graph6.{holds_six, unpacked};

// Does the byte hold six bits: is it from 63 to 126?
#[tactic(auto, unfolding(model::specs::Graph6::holds_six))]
pub fn holds_six(byte: u8) -> bool
    ensures { result ≡ holds_six byte }
{
    matches!(byte, 63..=126)
}

// Does each of the bytes?
pub fn all_hold_six(bytes: &[u8]) -> bool
    ensures { result ≡ every holds_six bytes.now }
{
    bytes.iter().all(|byte| holds_six(*byte))
}

// Is bit k of the bytes set, counted from 0? Behind their end none is.
pub fn bit_at(bytes: &[u8], k: usize) -> bool
    ensures { result ≡ eqb (get_or (unpacked bytes.now) k 0) 1 }
{
    let Some(byte) = bytes.get(k / 6) else {
        return false;
    };
    words::is_set(u64::from(byte.saturating_sub(63)), 5 - k % 6)
}
