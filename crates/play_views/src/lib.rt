// The calls that only read a layout, each with its answer line.
#![tactic(auto)]

ghost use Rattle.std.specs.Prelude.{◌+◌, ◌*◌, ◌≤◌, length};
ghost use Rattle.play_answers.specs.Lines.{line_room};

use decimals::{put_bytes, put_number};
use model::{Edge, Layout, Refusal, refusal_number};
use play_answers::{Played, put_head, put_numbers, told_same};
use text::put_text;

pub fn count(l: Layout, line: &mut [u8]) -> Played
    ensures { result.written ≤ line_room }
{
    let answer = queries::count(l);
    let at = put_head(line, b"count", refusal_number(&answer));
    let end = put_number(line, at, answer.unwrap_or(0));
    told_same(line, end, l)
}

// Reads the order into a buffer of size bytes, or 255 if that is less, each of which holds fill
// modulo 256 before the call.
pub fn order(l: Layout, size: u64, fill: u64, line: &mut [u8]) -> Played
    ensures { result.written ≤ line_room }
{
    let mut bytes = [(fill % 256) as u8; 255];
    let buffer = &mut bytes[..size.min(255) as usize];
    let answer = queries::order(l, buffer);
    let head_end = put_head(line, b"order", refusal_number(&answer));
    let end = put_buffer(line, head_end, buffer);
    told_same(line, end, l)
}

// Writes the layout as a chart into a buffer of size bytes, or 8,192 if that is less, each of which holds
// fill modulo 256 before the call.
pub fn write(l: Layout, size: u64, fill: u64, line: &mut [u8]) -> Played
    ensures { result.written ≤ line_room }
{
    written_by(b"write", chart_writer::write, l, size, fill, line)
}

// The same in graph6.
pub fn export(l: Layout, size: u64, fill: u64, line: &mut [u8]) -> Played
    ensures { result.written ≤ line_room }
{
    written_by(b"export", graph6_export::export, l, size, fill, line)
}

// Answers the line of a call that writes a layout, by the call and its name.
fn written_by<F: FnOnce(Layout, &mut [u8]) -> Result<usize, Refusal>>(
    name: &[u8],
    write: F,
    l: Layout,
    size: u64,
    fill: u64,
    line: &mut [u8],
) -> Played
    requires callable { F.IsAlwaysCallable write }
    requires short { length name.now ≤ 6 }
    ensures { result.written ≤ line_room }
{
    let mut bytes = [(fill % 256) as u8; 8192];
    let buffer = &mut bytes[..size.min(8192) as usize];
    let answer = write(l, buffer);
    let head_end = put_head(line, name, refusal_number(&answer));
    let length_end = put_number(line, head_end, answer.unwrap_or(0) as u64);
    let end = put_buffer(line, length_end, buffer);
    told_same(line, end, l)
}

// Each byte of the buffer after the call.
fn put_buffer(line: &mut [u8], at: usize, buffer: &[u8]) -> usize
    ensures { result ≤ at + 7 + 4 * length buffer.now }
{
    let name_end = put_text(line, at, b" buffer");
    put_bytes(line, name_end, buffer)
}

pub fn pair(l: Layout, line: &mut [u8]) -> Played
    ensures { result.written ≤ line_room }
{
    let answer = first_crossing::first_crossing(l);
    let head_end = put_head(line, b"pair", refusal_number(&answer));
    let end = match answer {
        Ok(Some((first, second))) => put_pair(line, head_end, first, second),
        Ok(None) => put_text(line, head_end, b" none"),
        Err(_) => put_text(line, head_end, b" refused"),
    };
    told_same(line, end, l)
}

fn put_pair(line: &mut [u8], at: usize, first: Edge, second: Edge) -> usize
    ensures { result ≤ at + 89 }
{
    let name_end = put_text(line, at, b" pair");
    let ends = [first.low, first.high, second.low, second.high];
    put_numbers(line, name_end, &ends.map(|end| end as u64))
}
