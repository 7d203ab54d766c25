// Reading charts: the questions of document 01, each asked of the whole input before the next, and the
// layout (ring) that an accepted chart gives. chart_questions has 1 to 4, chart_ends 5 and 6, chart_bodies
// 7 and 8, chart_weights 24 and 25. PassedFirst k says that the first k of these have passed, SizeRead k
// that n has been read besides. Document 01 has each pass answer an enum, taken apart: so let .. else, and no `?`.
#![tactic(auto)]

ghost use Rattle.std.specs.Prelude.{◌≡◌, ◌≤◌, length};
ghost use Rattle.model.specs.Charts.{chart_edges, chart_order, as_read, read_of};
ghost use Rattle.laws.specs.Charts.Words.{adjacency_of};
ghost use Rattle.laws.specs.Charts.Padded.{padded};
ghost use Rattle.chart.specs.Reading.{PassedFirst, SizeRead};

use chart_questions::body_of;
use model::{Layout, Refusal};
use read_layout::counted;

// An accepted chart gives its edges with their weights, its order and its crossings; a refused one the
// empty layout.
pub fn read(bytes: &[u8]) -> Result<Layout, Refusal>
    ensures { as_read result ≡ read_of bytes.now }
{
    let divided = chart_questions::ask_fields(bytes);
    let Ok(()) = divided else {
        return Err(divided.unwrap_err());
    };
    read_divided(bytes)
}

// Question 3 and those behind it, once 1 and 2 have passed.
fn read_divided(bytes: &[u8]) -> Result<Layout, Refusal>
    requires { PassedFirst 2 bytes.now }
    ensures { as_read result ≡ read_of bytes.now }
{
    let tagged = chart_questions::ask_tags(bytes);
    let Ok(()) = tagged else {
        return Err(tagged.unwrap_err());
    };
    read_fields(bytes)
}

// Question 4 and those behind it.
fn read_fields(bytes: &[u8]) -> Result<Layout, Refusal>
    requires { PassedFirst 3 bytes.now }
    ensures { as_read result ≡ read_of bytes.now }
{
    let found = chart_questions::find_size(body_of(bytes, 0));
    let Ok(n) = found else {
        return Err(found.unwrap_err());
    };
    read_links(bytes, n)
}

// Questions 5 and 6, and those behind them, once the number of vertices is known.
fn read_links(bytes: &[u8], n: usize) -> Result<Layout, Refusal>
    requires { SizeRead 4 bytes.now n }
    ensures { as_read result ≡ read_of bytes.now }
{
    let within = chart_ends::ask_ends(n, body_of(bytes, 1));
    let Ok(()) = within else {
        return Err(within.unwrap_err());
    };
    read_edges(bytes, n)
}

// Question 7 and those behind it, once the ends are known to be below n and different.
fn read_edges(bytes: &[u8], n: usize) -> Result<Layout, Refusal>
    requires { SizeRead 6 bytes.now n }
    ensures { as_read result ≡ read_of bytes.now }
{
    let mut adjacency = [0; 64];
    let different = chart_bodies::join_edges(body_of(bytes, 1), &mut adjacency);
    let Ok(()) = different else {
        return Err(different.unwrap_err());
    };
    read_order(bytes, n, adjacency)
}

// Question 8 and those behind it, once the words are known.
fn read_order(bytes: &[u8], n: usize, adjacency: [u64; 64]) -> Result<Layout, Refusal>
    requires { SizeRead 7 bytes.now n × (adjacency ≡ adjacency_of (chart_edges bytes.now)) }
    ensures { as_read result ≡ read_of bytes.now }
{
    let body = body_of(bytes, 2);
    let once = chart_bodies::ask_order(n, body);
    let Ok(()) = once else {
        return Err(once.unwrap_err());
    };
    read_weights(bytes, n, filled_up(body), adjacency)
}

// The body of an order, with 0 in the places behind it.
fn filled_up(body: &[u8]) -> [u8; 64]
    requires { length body.now ≤ 64 }
    ensures { result ≡ padded body.now }
{
    let mut order = [0; 64];
    order[..body.len()].copy_from_slice(body);
    order
}

// Questions 24 and 25, once the order is known, and the layout.
fn read_weights(
    bytes: &[u8],
    n: usize,
    order: [u8; 64],
    adjacency: [u64; 64],
) -> Result<Layout, Refusal>
    requires { SizeRead 8 bytes.now n × (order ≡ padded (chart_order bytes.now)) × (adjacency ≡ adjacency_of (chart_edges bytes.now)) }
    ensures { as_read result ≡ read_of bytes.now }
{
    let links = body_of(bytes, 1);
    let listed = chart_questions::weights_of(bytes);
    let weighed = chart_weights::ask_weights(links, listed);
    let Ok(()) = weighed else {
        return Err(weighed.unwrap_err());
    };
    let mut weights = [0; 4096];
    chart_weights::set_weights(&mut weights, links, listed);
    Ok(counted(n, order, adjacency, weights))
}
