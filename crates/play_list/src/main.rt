// Plays the list of calls on standard input and writes the answer lines (tests/README.md). The work
// is in play_calls; here records and the bytes behind them are read, and lines are written.
#![tactic(auto)]

ghost use Rattle.std.specs.Prelude.{◌≤◌, length};
ghost use Rattle.io.specs.Counts.{IsPrefixLen};

use model::Layout;
use play_calls::Played;
use std::io::{Read, Write};

fn main(rt: HostRuntime) {
    let mut l = layout::empty();
    // A proved loop has to end, and nothing says that the input does: the turns are counted, up to
    // a number that no run reaches.
    for _ in 0..u64::MAX {
        let Some(next) = play_next(&mut rt.stdin(), &mut rt.stdout(), l) else {
            return;
        };
        l = next;
    }
}

// Reads a record, with the bytes that follow it if some do, plays it and writes its line. Answers the
// layout that then stands, or none where the list ends.
fn play_next(input: &mut impl Read, output: &mut impl Write, l: Layout) -> Option<Layout> {
    let mut space = [0u8; 32];
    let got = read_full(input, &mut space);
    let record = &space[..got];
    let mut line = [0u8; 65536];
    let played = if record.is_empty() {
        return None;
    } else if play_calls::starts_from_bytes(record) {
        play_start(input, l, record, &mut line)
    } else {
        play_calls::play(l, record, &mut line)
    };
    let _ = output.write_all(&line[..played.written]);
    played.next
}

// Reads the bytes that follow a record and starts from them.
fn play_start(input: &mut impl Read, l: Layout, record: &[u8], line: &mut [u8; 65536]) -> Played
    ensures { IsPrefixLen result.written line.new }
{
    // Room for a chart, and for one byte more, which tells that it is too long. A graph needs less.
    let mut space = [0u8; 8193];
    let length = play_calls::number(record, 8);
    let bytes = &mut space[..play_calls::bytes_kept(length)];
    let is_whole = read_whole(input, bytes) && pass_over(input, play_calls::bytes_rest(length));
    play_calls::play_start(l, record, is_whole.then_some(bytes), line)
}

// Reads so many bytes and leaves them. False if the input ends before.
fn pass_over(input: &mut impl Read, count: u64) -> bool {
    let mut space = [0u8; 4096];
    let mut left = count;
    // no index is counted: what is left, a buffer at a time
    while left > 0 {
        let step = left.min(4096);
        if !read_whole(input, &mut space[..step as usize]) {
            return false;
        }
        left -= step;
    }
    true
}

// Reads until the buffer is full. False if the input ends or a read fails before; one that a signal interrupts
// counts as failed, as between records, where read_exact would try it again.
fn read_whole(input: &mut impl Read, buffer: &mut [u8]) -> bool {
    read_full(input, buffer) == buffer.len()
}

// Reads until the buffer is full, the input ends or a read fails. Answers how many bytes were put at the
// buffer's start, which read_exact does not: a list may end behind a record, and not within one.
fn read_full(input: &mut impl Read, buffer: &mut [u8]) -> usize
    ensures { result ≤ length buffer.new }
{
    let mut done = 0;
    while done < buffer.len() {
        let Ok(more @ 1..) = input.read(&mut buffer[done..]) else {
            break;
        };
        done += more;
    }
    done
}
