// Exporting a layout (ring) in graph6 into a lent buffer (document 02, Note 4). Its order is dropped; a
// weight other than 1 is refused (Note 8).
#![tactic(auto)]

ghost use Rattle.std.specs.Prelude.{◌≡◌, ◌≤◌, length};
ghost use Rattle.model.specs.Answers.{as_written, refusal_number};
ghost use Rattle.model.specs.Writing.{write_of, written_bytes};
ghost use Rattle.model.specs.Graph6.{size_part, graph6_format};
ghost use Rattle.laws.specs.Buffers.Writing.{Written};
ghost use Rattle.text.specs.Room.{Put};
ghost use Rattle.graph6_export.specs.Parts.{graph6_with, counted};
ghost use Rattle.graph6_export.specs.Weights.{weight_code};

use buffer_checks::write_refusal;
use graph6_packing::pack_pairs;
use graph6_pairs::data_length;
use graph6_size::size_length;
use model::{Layout, Refusal};
use text::put_text;
use validity::is_valid;
use weights::all_unit;

// Writes the graph to the start of the buffer, and answers how many bytes it has. The bytes beyond it
// keep their contents.
pub fn export(l: Layout, buffer: &mut [u8]) -> Result<usize, Refusal>
    ensures value { as_written result ≡ write_of graph6_format l buffer.old }
    ensures buffer_after { buffer.new ≡ written_bytes graph6_format l buffer.old }
{
    let n = l.n;
    let length = size_length(n) + data_length(n);
    let own = weight_refusal(&l.weights);
    let size = buffer.len();
    write_refusal(is_valid(l), own, length, size, Refusal::ShortBuffer)?;
    put_graph(buffer, n, &l.adjacency);
    Ok(length)
}

// Is no weight above 1?
fn weight_refusal(weights: &[u8; 4096]) -> Result<(), Refusal>
    ensures { refusal_number result ≡ weight_code weights.now }
{
    if all_unit(weights) {
        Ok(())
    } else {
        Err(Refusal::Weighted)
    }
}

// The size part, and the bits of the pairs behind it. Answers where they end.
fn put_graph(out: &mut [u8], n: usize, adjacency: &[u64; 64]) -> usize
    requires { (n ≤ 64) × (counted n ≤ length out.old) }
    ensures { Written out.old 0 (graph6_with n adjacency.now) out.new result }
{
    let start = put_size(out, n);
    let bytes = pack_pairs(n, adjacency);
    let size = data_length(n);
    put_text(out, start, &bytes[..size])
}

// The size part: one byte, or the byte 126 and three of six bits each, the high six of which are 0.
fn put_size(out: &mut [u8], n: usize) -> usize
    requires { n ≤ 64 }
    ensures { Put (length (size_part n)) out.old 0 (size_part n) out.new result }
{
    if n <= 62 {
        let byte = (n + 63) as u8;
        let short = [byte];
        return put_text(out, 0, &short);
    }
    let middle = (n / 64 + 63) as u8;
    let low = (n % 64 + 63) as u8;
    let long = [126, 63, middle, low];
    put_text(out, 0, &long)
}
