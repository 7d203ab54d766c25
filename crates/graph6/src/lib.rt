// Importing a graph in graph6 (document 02, Note 4): questions 20 to 22, each asked of the whole input
// before the next, and the layout that an accepted graph gives, in the order 0, 1, 2 and so on, each
// edge with the weight 1. Document 01 has each pass answer an enum, taken apart: so let .. else, and no `?`.
#![tactic(auto)]

ghost use Rattle.std.specs.Prelude.{◌≡◌, ◌≤◌};
ghost use Rattle.model.specs.Lists.{upto};
ghost use Rattle.model.specs.Charts.{as_read};
ghost use Rattle.model.specs.Graph6.{import_of};
ghost use Rattle.laws.specs.Charts.Padded.{padded};
ghost use Rattle.graph6.specs.Importing.{import_bits};

use model::{Layout, Refusal};
use read_layout::counted;

// An accepted graph gives its edges and its crossings; a refused one the empty layout.
pub fn import(bytes: &[u8]) -> Result<Layout, Refusal>
    ensures { as_read result ≡ import_of bytes.now }
{
    let found = graph6_size::find_size(bytes);
    let Ok(n) = found else {
        return Err(found.unwrap_err());
    };
    let start = graph6_size::size_length(n);
    import_bits(n, &bytes[start..])
}

// Questions 21 and 22, once the number of vertices is known, and the layout.
fn import_bits(n: usize, bytes: &[u8]) -> Result<Layout, Refusal>
    requires { n ≤ 64 }
    ensures { as_read result ≡ import_bits n bytes.now }
{
    let right = graph6_pairs::ask_bits(n, bytes);
    let Ok(()) = right else {
        return Err(right.unwrap_err());
    };
    let adjacency = graph6_pairs::join_pairs(n, bytes);
    let weights = weights::unit_table(&adjacency);
    Ok(counted(n, rising_order(n), adjacency, weights))
}

// The vertices in rising order.
fn rising_order(n: usize) -> [u8; 64]
    requires { n ≤ 64 }
    ensures { result ≡ padded (upto n) }
{
    let mut order = [0; 64];
    for v in 0..n {
        order[v] = v as u8;
    }
    order
}
