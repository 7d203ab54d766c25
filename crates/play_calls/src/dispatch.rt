// One record of a list.
ghost use Rattle.std.specs.Prelude.{◌≤◌};
ghost use Rattle.io.specs.Counts.{IsPrefixLen};
ghost use Rattle.play_answers.specs.Lines.{line_room};

use crate::starts;
use model::Layout;
use play_answers::{Played, silent};
use play_records::number;
use play_replies::play_call;
use text::put_text;

// Plays a record that no bytes follow, and ends the list at one that is cut short.
pub fn play(l: Layout, record: &[u8], line: &mut [u8; 65536]) -> Played
    ensures { IsPrefixLen result.written line.new }
{
    if record.len() < 32 {
        return end(line);
    }
    let [op, a, b, c] = [0, 8, 16, 24].map(|at| number(record, at));
    play_op(l, op, a, b, c, line)
}

// Is the record whole, and a start from bytes that follow it in the list: a chart, or a graph in
// graph6?
pub fn starts_from_bytes(record: &[u8]) -> bool {
    record.len() >= 32 && matches!(number(record, 0), 1 | 28)
}

// Starts from the bytes kept of those that follow a record, and ends the list where they are cut
// short.
pub fn play_start(l: Layout, record: &[u8], bytes: Option<&[u8]>, line: &mut [u8; 65536]) -> Played
    ensures { IsPrefixLen result.written line.new }
{
    let Some(bytes) = bytes else {
        return end(line);
    };
    if number(record, 0) == 28 {
        return starts::import_graph(l, bytes, line);
    }
    starts::read_chart(l, bytes, line)
}

// What the table of ops says, but for starts from bytes. Any other op ends the list.
fn play_op(l: Layout, op: u64, a: u64, b: u64, c: u64, line: &mut [u8]) -> Played
    ensures { result.written ≤ line_room }
{
    match op {
        0 => starts::empty(l, line),
        2 => silent(play_records::with_n(l, a)),
        3 => silent(play_records::with_place(l, a, b)),
        4 => silent(play_records::with_word(l, a, b)),
        5 => silent(play_records::with_count(l, a)),
        6 => silent(play_records::with_weight(l, a, b, c)),
        24 => play_views::count(l, line),
        25 => play_views::order(l, a, b, line),
        26 => play_views::pair(l, line),
        27 => play_views::write(l, a, b, line),
        29 => play_views::export(l, a, b, line),
        30 => play_tables::edge_crossings(l, a, b, line),
        _ => match calls_encoding::call_of(op, a as usize, b as usize, c) {
            Some(call) => play_call(l, call, line),
            None => end(line),
        },
    }
}

// The list ends here.
fn end(line: &mut [u8]) -> Played
    ensures { result.written ≤ line_room }
{
    Played {
        written: put_text(line, 0, b"end\n"),
        next: None,
    }
}
