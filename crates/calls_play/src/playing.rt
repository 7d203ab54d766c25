// A list of calls played from the empty layout, from a chart or from a graph in graph6.
ghost use Rattle.std.specs.Prelude.{◌≡◌, ◌++◌, ◌+◌, ◌*◌, ◌≤◌, length, drop};
ghost use Rattle.model.specs.Answers.{number};
ghost use Rattle.model.specs.Charts.{as_read};
ghost use Rattle.model.specs.Histories.{played};
ghost use Rattle.model.specs.Playing.{calls_of, answer_width, answers_of, start_of, origin_of, played_calls, play_of, table_of};
ghost use Rattle.laws.specs.Buffers.Writing.{written};
ghost use Rattle.calls_encoding.specs.CallLists.{call_there};
ghost use Rattle.calls_play.specs.PlayAnswers.{not_played};
ghost use Rattle.history.specs.Demand3.{Demand3};

use calls_encoding::{call_at, count_calls, put_answer};
use calls_step::step;
use model::{ANSWER_WIDTH, Layout, Origin, Played, Refusal};

// Plays the calls, and writes the answer of each into the table. Refused where the chart or graph is,
// and with 18 where the table is too short for the answers: nothing is then played or written.
pub fn play(origin: Origin, bytes: &[u8], calls: &[u64], answers: &mut [u64]) -> Played
    ensures returned { result ≡ play_of origin bytes.now calls.now (length answers.old) }
    ensures table { answers.new ≡ table_of origin bytes.now calls.now answers.old }
    ensures claim { Demand3 (start_of origin bytes.now).layout
        (played_calls origin bytes.now calls.now (length answers.old)) }
{
    let layout = match start_of(origin, bytes) {
        Ok(start) => start,
        Err(refusal) => return not_played(refusal, layout::empty()),
    };
    let count = count_calls(calls);
    if answers.len() / ANSWER_WIDTH < count {
        return not_played(Refusal::ShortOrder, layout);
    }
    Played {
        refusal: 0,
        layout: play_all(layout, calls, count, answers),
        calls: count,
    }
}

// The same with the origin as a number.
pub fn play_from(origin: u8, bytes: &[u8], calls: &[u64], answers: &mut [u64]) -> Played
    ensures returned { result ≡ play_of (origin_of origin) bytes.now calls.now (length answers.old) }
    ensures table { answers.new ≡ table_of (origin_of origin) bytes.now calls.now answers.old }
    ensures claim { Demand3 (start_of (origin_of origin) bytes.now).layout
        (played_calls (origin_of origin) bytes.now calls.now (length answers.old)) }
{
    play(Origin::from(origin), bytes, calls, answers)
}

// No call is played.
fn not_played(refusal: Refusal, layout: Layout) -> Played
    ensures { result ≡ not_played (number refusal) layout }
{
    Played {
        refusal: refusal.number(),
        layout,
        calls: 0,
    }
}

fn start_of(origin: Origin, bytes: &[u8]) -> Result<Layout, Refusal>
    ensures { as_read result ≡ start_of origin bytes.now }
{
    match origin {
        Origin::Empty => Ok(layout::empty()),
        Origin::Chart => chart::read(bytes),
        Origin::Graph6 => graph6::import(bytes),
    }
}

// The first count calls, which are all.
fn play_all(l: Layout, calls: &[u64], count: usize, answers: &mut [u64]) -> Layout
    requires { (count ≡ length (calls_of calls.now)) × (answer_width * count ≤ length answers.old) }
    ensures value { result ≡ played l (calls_of calls.now) }
    ensures answers_after { answers.new ≡ answers_of l (calls_of calls.now) ++ drop (answer_width * count) answers.old }
{
    let mut layout = l;
    for i in 0..count {
        layout = play_next(layout, calls, i, answers);
    }
    layout
}

// Call i, and its answer into the table.
fn play_next(l: Layout, calls: &[u64], i: usize, answers: &mut [u64]) -> Layout
    requires { answer_width * i + answer_width ≤ length answers.old }
    ensures value { result ≡ played l (call_there calls.now i) }
    ensures answers_after { answers.new ≡ written answers.old (answer_width * i) (answers_of l (call_there calls.now i)) }
{
    let Some(c) = call_at(calls, i) else {
        return l;
    };
    let answer = step(l, c);
    put_answer(answer, answers, ANSWER_WIDTH * i);
    answer.layout
}
