// The empty layout, a chart's listing, and lists of calls, for hosts: no lent layout.
ghost use Rattle.std.specs.Prelude.{◌≡◌, length};
ghost use Rattle.model.specs.Layouts.{empty_layout};
ghost use Rattle.model.specs.Listing.{listed_length, listed_bytes};
ghost use Rattle.model.specs.Playing.{start_of, origin_of, played_calls, play_of, table_of};
ghost use Rattle.history.specs.Demand3.{Demand3};

use model::{Layout, Played};

#[unsafe(no_mangle)]
pub extern "C" fn rl_empty() -> Layout
    ensures { result ≡ empty_layout }
{
    layout::empty()
}

#[unsafe(no_mangle)]
pub extern "C" fn rl_list_chart(chart: &[u8], out: &mut [u8]) -> usize
    ensures value { result ≡ listed_length chart.now out.old }
    ensures out_after { out.new ≡ listed_bytes chart.now out.old }
{
    listing::list_chart(chart, out)
}

// Plays a list of calls: from the bytes as a chart where origin is 1, from them as a graph in graph6
// where it is 2, and otherwise from the empty layout.
#[unsafe(no_mangle)]
pub extern "C" fn rl_play(origin: u8, bytes: &[u8], calls: &[u64], answers: &mut [u64]) -> Played
    ensures value { result ≡ play_of (origin_of origin) bytes.now calls.now (length answers.old) }
    ensures answers_after { answers.new ≡ table_of (origin_of origin) bytes.now calls.now answers.old }
    ensures claim { Demand3 (start_of (origin_of origin) bytes.now).layout
        (played_calls (origin_of origin) bytes.now calls.now (length answers.old)) }
{
    calls_play::play_from(origin, bytes, calls, answers)
}
