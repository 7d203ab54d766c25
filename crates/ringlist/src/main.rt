// Reads a chart on standard input, settles it and lists it. At most 8,193 bytes are read, the last
// only to tell that the chart is too long. Where reading or writing fails, one line on standard
// error says so.
#![tactic(auto)]

ghost use Rattle.std.specs.Prelude.{length, OnOk};
ghost use Rattle.std.specs.Io.KnownBytes.{Appends};
ghost use Rattle.model.specs.Listing.{listing_of};
ghost use Rattle.ringlist.specs.Input.{Within, TakenFrom};

use std::io;
use std::io::{Read, Write};

fn main(rt: HostRuntime) {
    let mut input = [0u8; 8193];
    let Ok(got) = read_input(&mut rt.stdin(), &mut input) else {
        let _ = eprintln!(rt; "ringlist: standard input cannot be read");
        return;
    };
    list(&rt, &input[..got]);
}

fn list(rt: &(impl Print + Eprint), chart: &[u8]) {
    if write_listing(&mut io::writer(rt), chart).is_err() {
        let _ = eprintln!(rt; "ringlist: standard output cannot be written");
    }
}

// Writes the listing of a chart.
fn write_listing<W: Write>(output: &mut W, chart: &[u8]) -> io::Result<()>
    ensures { OnOk result (Appends (W.contents output.old) (W.contents output.new) (listing_of chart.now)) }
{
    let mut out = [0u8; 1024];
    let n = listing::list_chart(chart, &mut out);
    output.write_all(&out[..n])
}

// Reads to the input's end or as far as the buffer goes.
fn read_input<R: Read>(from: &mut R, input: &mut [u8]) -> io::Result<usize>
    ensures within { Within result (length input.new) }
    ensures taken { TakenFrom result (R.remaining from.old) (R.remaining from.new) input.new }
{
    let mut got = 0;
    // no index is counted: each read says how many bytes came, which read_exact does not
    while got < input.len() {
        let more = from.read(&mut input[got..])?;
        if more == 0 {
            break;
        }
        got += more;
    }
    Ok(got)
}
