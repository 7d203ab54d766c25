// Writing the chart of a layout (ring) into a lent buffer (document 02, Notes 1 and 8).
#![tactic(auto)]

ghost use Rattle.std.specs.Prelude.{◌≡◌, [], ◌∷◌, ◌+◌, ◌*◌, ◌/◌, ◌%◌, ◌≤◌, ◌<◌, length, take};
ghost use Rattle.model.specs.Answers.{as_written};
ghost use Rattle.model.specs.Crossings.{edges};
ghost use Rattle.model.specs.Writing.{write_of, written_bytes};
ghost use Rattle.model.specs.WrittenCharts.{field_bytes, edge_bytes, chart_format};
ghost use Rattle.laws.specs.Buffers.Writing.{Written};
ghost use Rattle.laws.specs.Buffers.Charts.{chart_with};
ghost use Rattle.text.specs.Room.{Put};
ghost use Rattle.chart_writer.specs.Fields.{lent, weight_room, weight_bytes, FieldsFit, ChartFits};
ghost use Rattle.chart_writer.specs.Answers.{counted, weights_kept};

use buffer_checks::write_refusal;
use edge_list::{edge_count, put_edges};
use model::{Layout, Refusal};
use text::put_text;
use validity::is_valid;
use weights::all_unit;

// Writes the chart to the start of the buffer, and answers its length. The bytes beyond it keep
// their contents.
pub fn write(l: Layout, buffer: &mut [u8]) -> Result<usize, Refusal>
    ensures value { as_written result ≡ write_of chart_format l buffer.old }
    ensures buffer_after { buffer.new ≡ written_bytes chart_format l buffer.old }
{
    let chart = Chart::of(&l);
    let length = chart.length();
    let size = buffer.len();
    write_refusal(is_valid(l), Ok(()), length, size, Refusal::ShortBuffer)?;
    chart.put(buffer);
    Ok(length)
}

// What the chart of a layout holds: its vertices in their order, its edges, and their weights unless
// all edges weigh 1, which are lent: a copy would be made before the checks.
#[derive(Clone, Copy)]
struct Chart<'a> {
    n: usize,
    order: [u8; 64],
    adjacency: [u64; 64],
    weights: Option<&'a [u8; 4096]>,
}

impl<'a> Chart<'a> {
    #[tactic(auto, unfolding(crate::specs::Fields::lent))]
    fn of(l: &'a Layout) -> Chart<'a>
        ensures size { result.n ≡ l.now.n }
        ensures order { result.order ≡ l.now.order }
        ensures words { result.adjacency ≡ l.now.adjacency }
        ensures weights { lent result.weights ≡ weights_kept l.now.weights }
    {
        let weights = if all_unit(&l.weights) {
            None
        } else {
            Some(&l.weights)
        };
        Chart {
            n: l.n,
            order: l.order,
            adjacency: l.adjacency,
            weights,
        }
    }

    // How many bytes it has: three headers, n itself, the edges and the order, and the weights. 0 above 64
    // vertices, which no chart has.
    fn length(&self) -> usize
        ensures { result ≡ counted self.now.n self.now.adjacency (lent self.now.weights) }
    {
        if 64 < self.n {
            return 0;
        }
        let edges = edge_count(self.n, &self.adjacency);
        10 + 2 * edges as usize + self.n + self.weights_length(edges)
    }

    // How many bytes field 57 has: none where all edges weigh 1.
    #[tactic(auto, unfolding(crate::specs::Fields::lent))]
    fn weights_length(&self, edges: u32) -> usize
        ensures { result ≡ weight_room (lent self.now.weights) edges }
    {
        match self.weights {
            None => 0,
            Some(_) => 3 + edges as usize,
        }
    }

    // Writes the fields to the start of a buffer, and answers where they end.
    fn put(&self, out: &mut [u8]) -> usize
        requires { ChartFits self.now.n self.now.adjacency (lent self.now.weights) out.old }
        ensures { let c = self.now in let es = edges c.n c.adjacency in
            Written out.old 0 (chart_with c.n es (take c.n c.order) (weight_bytes (lent c.weights) es)) out.new result }
    {
        let at = self.put_fields(out);
        self.put_weights(out, at)
    }

    // Fields 44, 4C and 52.
    fn put_fields(&self, out: &mut [u8]) -> usize
        requires { FieldsFit self.now.n self.now.adjacency out.old }
        ensures { let c = self.now in
            Written out.old 0 (chart_with c.n (edges c.n c.adjacency) (take c.n c.order) []) out.new result }
    {
        let size = [self.n as u8];
        let links = put_field(out, 0, 0x44, &size);
        let places = self.put_links(out, links);
        put_field(out, places, 0x52, &self.order[..self.n])
    }

    // Field 4C.
    fn put_links(&self, out: &mut [u8], at: usize) -> usize
        requires { let c = self.now in (c.n ≤ 64) × (at + 3 + 2 * length (edges c.n c.adjacency) ≤ length out.old) }
        ensures { let c = self.now in Written out.old at (field_bytes 0x4C (edge_bytes (edges c.n c.adjacency))) out.new result }
    {
        let count = edge_count(self.n, &self.adjacency) as usize;
        let body = put_header(out, at, 0x4C, 2 * count);
        put_edges(out, body, self.n, &self.adjacency)
    }

    // Field 57, unless all edges weigh 1.
    fn put_weights(&self, out: &mut [u8], at: usize) -> usize
        requires { let c = self.now in
            (c.n ≤ 64) × (at + weight_room (lent c.weights) (length (edges c.n c.adjacency)) ≤ length out.old) }
        ensures { let c = self.now in Written out.old at (weight_bytes (lent c.weights) (edges c.n c.adjacency)) out.new result }
    {
        let Some(weights) = self.weights else {
            return at;
        };
        let count = edge_count(self.n, &self.adjacency) as usize;
        let body = put_header(out, at, 0x57, count);
        weight_list::put_weights(out, body, self.n, &self.adjacency, weights)
    }
}

fn put_field(out: &mut [u8], at: usize, tag: u8, body: &[u8]) -> usize
    requires { (length body.now < 65536) × (at + 3 + length body.now ≤ length out.old) }
    ensures { Written out.old at (field_bytes tag body.now) out.new result }
{
    let start = put_header(out, at, tag, body.len());
    put_text(out, start, body)
}

// The tag, and the length of the body, the high byte first.
fn put_header(out: &mut [u8], at: usize, tag: u8, size: usize) -> usize
    ensures { Put 3 out.old at (tag ∷ size / 256 % 256 ∷ size % 256 ∷ []) out.new result }
{
    let high = (size / 256 % 256) as u8;
    let low = (size % 256) as u8;
    let header = [tag, high, low];
    put_text(out, at, &header)
}
