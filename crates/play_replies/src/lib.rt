// The calls that change a layout, each with its answer line. They go through calls_step::step: what is
// compared is what the theorem over lists of calls speaks of.
#![tactic(auto)]

ghost use Rattle.std.specs.Prelude.{◌+◌, ◌≤◌, length};
ghost use Rattle.play_answers.specs.Lines.{line_room};

use decimals::put_number;
use model::{Call, Layout, Outcome};
use play_answers::{Played, put_head, put_numbers, told};
use text::put_text;

// Makes the call and writes its line.
pub fn play_call(l: Layout, c: Call, line: &mut [u8]) -> Played
    ensures { result.written ≤ line_room }
{
    let answer = calls_step::step(l, c);
    let head_end = put_head(line, name_of(c), answer.refusal);
    let at = put_answer(line, head_end, c, answer);
    told(line, at, l, answer.layout)
}

fn name_of(c: Call) -> &'static [u8]
    ensures { length result.now ≤ 6 }
{
    match c {
        Call::AddVertex => b"add",
        Call::AddEdge(..) => b"link",
        Call::RemoveEdge(..) => b"unlink",
        Call::MoveAfter(..) => b"move",
        Call::GreedyAppend(_) => b"lay",
        Call::Sift(_) => b"sift",
        Call::SiftingRound => b"round",
        Call::Converge(_) => b"settle",
    }
}

// The numbers that the call answers. The third of a settling is whether it converged.
fn put_answer(line: &mut [u8], at: usize, c: Call, answer: Outcome) -> usize
    ensures { result ≤ at + 67 }
{
    let [first, second, third] = [answer.first, answer.second, answer.third];
    match c {
        Call::AddEdge(..) | Call::RemoveEdge(..) | Call::MoveAfter(..) => at,
        Call::AddVertex | Call::GreedyAppend(_) => put_numbers(line, at, &[first]),
        Call::Sift(_) => put_numbers(line, at, &[first, second]),
        Call::SiftingRound => put_numbers(line, at, &[first, second, third]),
        Call::Converge(_) => {
            let rounds_end = put_numbers(line, at, &[first, second]);
            let settled_end = put_converged(line, rounds_end, third == 1);
            put_number(line, settled_end, answer.fourth)
        }
    }
}

fn put_converged(line: &mut [u8], at: usize, converged: bool) -> usize
    ensures { result ≤ at + 4 }
{
    if converged {
        put_text(line, at, b" yes")
    } else {
        put_text(line, at, b" no")
    }
}
