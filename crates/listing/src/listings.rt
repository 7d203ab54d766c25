// The listing of a chart: its layout settled with limit 50, or the number of the question that
// refused it.
ghost use Rattle.std.specs.Prelude.{◌≡◌, ◌++◌, ◌≤◌, T, length, drop};
ghost use Rattle.model.specs.Layouts.{valid};
ghost use Rattle.model.specs.Listing.{listing, listed_length, listed_bytes};
ghost use Rattle.laws.specs.Layouts.Reordering.{CountRight};

use decimals::put_line;
use listing_lines::{Numbers, put_numbers, put_order_line, put_settled};
use model::Layout;
use sifting::converge;

// Writes the listing to the start of a buffer of at least 1,024 bytes, and answers its length. A
// shorter buffer is left alone, and 0 answered.
pub fn list_chart(bytes: &[u8], out: &mut [u8]) -> usize
    ensures value { result ≡ listed_length bytes.now out.old }
    ensures out_after { out.new ≡ listed_bytes bytes.now out.old }
{
    if out.len() < 1024 {
        return 0;
    }
    match chart::read(bytes) {
        Ok(l) => list_layout(l, out),
        Err(refusal) => put_line(out, 0, b"refused", u64::from(refusal.number())),
    }
}

fn list_layout(l: Layout, out: &mut [u8]) -> usize
    requires { T (valid l) × CountRight l × (1024 ≤ length out.old) }
    ensures { (out.new ≡ listing l ++ drop (length (listing l)) out.old) × (result ≡ length (listing l)) }
{
    let n = l.n;
    let (after, settled) = converge(l, 50).unwrap();
    let numbers = Numbers {
        vertices: n as u64,
        edges: edge_list::edge_count(n, &l.adjacency) as u64,
        before: l.count,
        after: after.count,
        rounds: settled.rounds as u64,
    };
    let state = put_numbers(out, 0, numbers);
    let order_line = put_settled(out, state, settled.converged);
    put_order_line(out, order_line, &after.order[..n])
}
