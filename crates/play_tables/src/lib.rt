// The crossings of every edge (perlink), with the answer line.
#![tactic(auto)]

ghost use Rattle.std.specs.Prelude.{◌≤◌};
ghost use Rattle.play_answers.specs.Lines.{line_room};

use decimals::put_number;
use model::{Layout, refusal_number};
use play_answers::{Played, put_head, put_numbers, told_same};
use text::put_text;

// Counts into a table of size entries, or 2,100 if that is less, each of which holds fill
// before the call.
pub fn edge_crossings(l: Layout, size: u64, fill: u64, line: &mut [u8]) -> Played
    ensures { result.written ≤ line_room }
{
    let mut entries = [fill; 2100];
    let table = &mut entries[..size.min(2100) as usize];
    let answer = edge_crossings::edge_crossings(l, table);
    let head_end = put_head(line, b"perlink", refusal_number(&answer));
    let number_end = put_number(line, head_end, answer.unwrap_or(0) as u64);
    let name_end = put_text(line, number_end, b" table");
    let end = put_numbers(line, name_end, table);
    told_same(line, end, l)
}
