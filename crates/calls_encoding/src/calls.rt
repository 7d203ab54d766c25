// Calls written as numbers, four to a call: which call, what it names, and the weight of an edge.
ghost use Rattle.std.specs.Prelude.{◌≡◌, length};
ghost use Rattle.model.specs.Playing.{call_of, calls_of};
ghost use Rattle.calls_encoding.specs.CallLists.{call_at};

use model::{CALL_WIDTH, Call};

// Of a weight one byte is taken.
pub fn call_of(op: u64, a: usize, b: usize, weight: u64) -> Option<Call>
    ensures { result ≡ call_of op a b weight }
{
    let byte = (weight % 256) as u8;
    match op {
        16 => Some(Call::AddVertex),
        17 => Some(Call::AddEdge(a, b, byte)),
        18 => Some(Call::RemoveEdge(a, b)),
        19 => Some(Call::MoveAfter(a, b)),
        20 => Some(Call::GreedyAppend(a)),
        21 => Some(Call::Sift(a)),
        22 => Some(Call::SiftingRound),
        23 => Some(Call::Converge(a)),
        _ => None,
    }
}

// How many calls the list holds: up to the first number that stands for none.
pub fn count_calls(calls: &[u64]) -> usize
    ensures { result ≡ length (calls_of calls.now) }
{
    let most = calls.len() / CALL_WIDTH;
    for i in 0..most {
        let Some(_) = call_at(calls, i) else {
            return i;
        };
    }
    most
}

// Call i of the list, counted from 0; none where the list has no numbers for it.
pub fn call_at(calls: &[u64], i: usize) -> Option<Call>
    ensures { result ≡ call_at calls.now i }
{
    if calls.len() / CALL_WIDTH <= i {
        return None;
    }
    let at = CALL_WIDTH * i;
    call_of(
        calls[at],
        calls[at + 1] as usize,
        calls[at + 2] as usize,
        calls[at + 3],
    )
}
