// A graph in graph6 imported into a lent layout, and a lent layout exported in graph6.
ghost use Rattle.std.specs.Prelude.{◌≡◌};
ghost use Rattle.model.specs.Writing.{write_of, written_bytes};
ghost use Rattle.model.specs.Graph6.{import_of, graph6_format};

use crate::stores::load;
use model::{Layout, LayoutWritten};

// A refused graph leaves the empty layout.
#[unsafe(no_mangle)]
pub extern "C" fn rl_import_graph6(l: &mut Layout, graph: &[u8]) -> u8
    ensures { (result ≡ (import_of graph.now).refusal) × (l.new ≡ (import_of graph.now).layout) }
{
    load(l, graph6::import(graph))
}

// Writes the layout's graph to the start of the buffer, and answers how many bytes it has.
#[unsafe(no_mangle)]
pub extern "C" fn rl_export_graph6(l: &Layout, buffer: &mut [u8]) -> LayoutWritten
    ensures { (result ≡ write_of graph6_format l.now buffer.old)
        × (buffer.new ≡ written_bytes graph6_format l.now buffer.old) }
{
    LayoutWritten::from(graph6_export::export(*l, buffer))
}
