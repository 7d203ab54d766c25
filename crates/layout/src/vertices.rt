// Adding a vertex (document 01: add).
ghost use Rattle.std.specs.Prelude.{◌≡◌, ◌<◌, length, set};
ghost use Rattle.model.specs.Answers.{as_added};
ghost use Rattle.model.specs.Edits.{add_of};

use model::{Layout, Refusal};
use validity::check_valid;

// Answers its number.
pub fn add_vertex(l: Layout) -> Result<(Layout, usize), Refusal>
    ensures { as_added l result ≡ add_of l }
{
    check_valid(l)?;
    let n = l.n;
    if 64 <= n {
        return Err(Refusal::Full);
    }
    let order = with_last(l.order, n);
    // without edges it crosses nothing: the count stays
    let next = Layout {
        n: n + 1,
        order,
        ..l
    };
    Ok((next, n))
}

// The order with vertex n at place n.
fn with_last(order: [u8; 64], n: usize) -> [u8; 64]
    requires { n < 64 }
    ensures { (result ≡ set order n n) × (length order ≡ 64) }
{
    let mut next = order;
    next[n] = n as u8;
    next
}
