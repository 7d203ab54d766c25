// A chart read into a lent layout, and the calls that only read one.
ghost use Rattle.std.specs.Prelude.{◌≡◌};
ghost use Rattle.model.specs.Layouts.{valid};
ghost use Rattle.model.specs.Reading.{count_of, order_refusal, order_bytes};
ghost use Rattle.model.specs.Charts.{read_of};
ghost use Rattle.model.specs.Reports.{crossing_report_of};
ghost use Rattle.model.specs.Writing.{write_of, written_bytes};
ghost use Rattle.model.specs.WrittenCharts.{chart_format};
ghost use Rattle.model.specs.EdgeCrossings.{edge_crossings_of, crossing_table};

use crate::stores::load;
use crossing_report::crossing_report;
use model::{Counted, CrossingReport, EdgesCounted, Layout, LayoutWritten, refusal_number};

// A refused chart leaves the empty layout.
#[unsafe(no_mangle)]
pub extern "C" fn rl_read_chart(l: &mut Layout, chart: &[u8]) -> u8
    ensures { (result ≡ (read_of chart.now).refusal) × (l.new ≡ (read_of chart.now).layout) }
{
    load(l, chart::read(chart))
}

#[unsafe(no_mangle)]
pub extern "C" fn rl_count(l: &Layout) -> Counted
    ensures { result ≡ count_of l.now }
{
    Counted::from(queries::count(*l))
}

#[unsafe(no_mangle)]
pub extern "C" fn rl_first_crossing(l: &Layout) -> CrossingReport
    ensures { result ≡ crossing_report_of l.now }
{
    crossing_report(*l)
}

#[unsafe(no_mangle)]
pub extern "C" fn rl_is_valid(l: &Layout) -> bool
    ensures { result ≡ valid l.now }
{
    validity::is_valid(*l)
}

// Writes the order to the first n bytes of the buffer, and answers the refusal code.
#[unsafe(no_mangle)]
pub extern "C" fn rl_order(l: &Layout, buffer: &mut [u8]) -> u8
    ensures { (result ≡ order_refusal l.now buffer.old)
        × (buffer.new ≡ order_bytes l.now buffer.old) }
{
    refusal_number(&queries::order(*l, buffer))
}

// Writes the layout's chart to the start of the buffer, and answers its length.
#[unsafe(no_mangle)]
pub extern "C" fn rl_write_chart(l: &Layout, buffer: &mut [u8]) -> LayoutWritten
    ensures { (result ≡ write_of chart_format l.now buffer.old)
        × (buffer.new ≡ written_bytes chart_format l.now buffer.old) }
{
    LayoutWritten::from(chart_writer::write(*l, buffer))
}

// Fills the start of the table with the crossings of every edge, and answers how many edges there are.
#[unsafe(no_mangle)]
pub extern "C" fn rl_edge_crossings(l: &Layout, table: &mut [u64]) -> EdgesCounted
    ensures { (result ≡ edge_crossings_of l.now table.old)
        × (table.new ≡ crossing_table l.now table.old) }
{
    EdgesCounted::from(edge_crossings::edge_crossings(*l, table))
}
