// Do bytes hold each vertex once: a list of n bytes, and the 64 places of a layout's order.
#![tactic(auto)]

ghost use Rattle.std.specs.Prelude.{◌≡◌, ◌&&◌, ◌≤◌, leb, length, take};
ghost use Rattle.model.specs.Layouts.{each_once, zero_from};

// The clauses of validity (document 01: whole) on n and the order.
pub fn order_valid(n: usize, order: &[u8; 64]) -> bool
    ensures { result ≡ (leb n 64 && each_once n (take n order.now) && zero_from n order.now) }
{
    is_order(n, order) && zero_from(n, order)
}

// Are n vertices few enough, and do the first n bytes hold each of them once?
#[tactic(auto, using(crate::specs::Seen::too_short))]
pub fn is_order(n: usize, bytes: &[u8]) -> bool
    ensures { result ≡ (leb n 64 && each_once n (take n bytes.now)) }
{
    n <= 64 && n <= bytes.len() && each_once(n, bytes)
}

// Do the first n places hold each vertex once?
fn each_once(n: usize, order: &[u8]) -> bool
    requires { (n ≤ 64) × (n ≤ length order.now) }
    ensures { result ≡ each_once n (take n order.now) }
{
    let mut seen: u64 = 0;
    for v in &order[..n] {
        let v = usize::from(*v);
        if n <= v || words::is_set(seen, v) {
            return false;
        }
        seen = words::set(seen, v);
    }
    true
}

// Are the unused places 0?
fn zero_from(n: usize, order: &[u8; 64]) -> bool
    ensures { result ≡ zero_from n order.now }
{
    order.iter().skip(n).all(|v| *v == 0)
}
