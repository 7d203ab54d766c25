// The size part of a graph in graph6: the number of vertices, in one byte or in four.
#![tactic(auto)]

ghost use Rattle.std.specs.Prelude.{◌≡◌, length};
ghost use Rattle.model.specs.Charts.{size_found};
ghost use Rattle.model.specs.Graph6.{size_part, graph6_size_answer};
ghost use Rattle.graph6_size.specs.Sizes.{short_answer, long_answer};

use graph6_bits::holds_six;
use model::Refusal;

// Question 20: the number of vertices whose size part the bytes start with.
pub fn find_size(bytes: &[u8]) -> Result<usize, Refusal>
    ensures { size_found result ≡ graph6_size_answer bytes.now }
{
    let &[first, ..] = bytes else {
        return Err(Refusal::NoGraphSize);
    };
    if first != 126 {
        return short_size(first);
    }
    let &[_, high, middle, low, ..] = bytes else {
        return Err(Refusal::NoGraphSize);
    };
    long_size(high, middle, low)
}

// The form of one byte: up to 62 vertices. The byte 126 starts the other form.
#[tactic(auto, using(crate::specs::Sizes::short_low, crate::specs::Sizes::short_high, crate::specs::Sizes::short_found), unfolding(model::specs::Charts::size_found, model::specs::Answers::number))]
fn short_size(byte: u8) -> Result<usize, Refusal>
    ensures { size_found result ≡ short_answer byte }
{
    match byte {
        63..=125 => Ok((byte - 63) as usize),
        _ => Err(Refusal::NoGraphSize),
    }
}

// The form of three bytes behind the byte 126, six bits each: 63 and 64 vertices. The high six bits
// of these are 0.
fn long_size(high: u8, middle: u8, low: u8) -> Result<usize, Refusal>
    ensures { size_found result ≡ long_answer high middle low }
{
    if high != 63 || !holds_six(middle) || !holds_six(low) {
        return Err(Refusal::NoGraphSize);
    }
    let n = 64 * (middle - 63) as usize + (low - 63) as usize;
    if n < 63 || 64 < n {
        return Err(Refusal::NoGraphSize);
    }
    Ok(n)
}

// How many bytes the size part of n vertices has.
#[tactic(auto, unfolding(model::specs::Graph6::size_part))]
pub fn size_length(n: usize) -> usize
    ensures { result ≡ length (size_part n) }
{
    if 62 < n { 4 } else { 1 }
}
