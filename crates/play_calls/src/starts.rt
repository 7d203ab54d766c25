// The starts: from the empty layout, from a chart, and from a graph in graph6.
ghost use Rattle.std.specs.Prelude.{◌≤◌, length};
ghost use Rattle.play_answers.specs.Lines.{line_room};

use model::{Layout, Refusal, refusal_number};
use play_answers::{Played, put_head, told};

pub(crate) fn empty(l: Layout, line: &mut [u8]) -> Played
    ensures { result.written ≤ line_room }
{
    started(l, b"empty", Ok(layout::empty()), line)
}

pub(crate) fn read_chart(l: Layout, bytes: &[u8], line: &mut [u8]) -> Played
    ensures { result.written ≤ line_room }
{
    started(l, b"chart", chart::read(bytes), line)
}

pub(crate) fn import_graph(l: Layout, bytes: &[u8], line: &mut [u8]) -> Played
    ensures { result.written ≤ line_room }
{
    started(l, b"import", graph6::import(bytes), line)
}

// The start has a name and gives a layout, the empty one where it is refused.
fn started(l: Layout, name: &[u8], read: Result<Layout, Refusal>, line: &mut [u8]) -> Played
    requires { length name.now ≤ 6 }
    ensures { result.written ≤ line_room }
{
    let at = put_head(line, name, refusal_number(&read));
    told(line, at, l, read.unwrap_or(layout::empty()))
}
