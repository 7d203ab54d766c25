// Bits of a 64-bit word. A place of 64 or above is none of its bits: it is never set, and setting
// or clearing it changes nothing.
#![tactic(auto)]

ghost use Rattle.std.specs.Prelude.{◌≡◌, ◌-◌, ◌^◌, min, cond, eqb, ltb};
ghost use Rattle.std.specs.Int.Bits.{bit_and};
ghost use Rattle.model.specs.Crossings.{bit};
ghost use Rattle.model.specs.Edits.{with_bit, without_bit};
ghost use Rattle.laws.specs.Sums.Bits.{masked_ones};

#[tactic(auto, unfolding(model::specs::Crossings::bit))]
pub fn is_set(word: u64, i: usize) -> bool
    ensures { result ≡ eqb (bit word i) 1 }
{
    i < 64 && (word >> i) % 2 == 1
}

// The bit at a place: 0 or 1.
#[tactic(auto, unfolding(model::specs::Crossings::bit))]
pub fn bit_at(word: u64, i: usize) -> u32
    ensures { result ≡ bit word i }
{
    if i < 64 { ((word >> i) % 2) as u32 } else { 0 }
}

pub fn set(word: u64, i: usize) -> u64
    ensures { result ≡ cond (ltb i 64) (with_bit word i) word }
{
    if i < 64 { word | (1u64 << i) } else { word }
}

pub fn clear(word: u64, i: usize) -> u64
    ensures { result ≡ without_bit word i }
{
    if i < 64 {
        word - (word & (1u64 << i))
    } else {
        word
    }
}

// The bits that are set in both words.
pub fn common(a: u64, b: u64) -> u64
    ensures { result ≡ bit_and a b }
{
    a & b
}

// How many bits are set in both the word and the mask.
pub fn count(word: u64, mask: u64) -> u32
    ensures { result ≡ masked_ones word mask }
{
    (word & mask).count_ones()
}

// The n lowest bits set; all 64 for an n above 64.
pub fn low_bits(n: usize) -> u64
    ensures { result ≡ 2 ^ min n 64 - 1 }
{
    if n < 64 { (1u64 << n) - 1 } else { u64::MAX }
}
