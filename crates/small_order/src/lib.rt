// The order with a given index in the list of all orders of at most eight vertices, vertex 0 first
// (document 02, Note 10), and how many there are.
#![tactic(auto)]

ghost use Rattle.std.specs.Prelude.{◌≡◌, ◌≤◌, ◌<◌, get_or, take};
ghost use Rattle.model.specs.Lists.{upto, keep};
ghost use Rattle.model.specs.SmallOrders.{factorial, number_of_orders, order_at};
ghost use Rattle.laws.specs.Small.Index.{rest_at};
ghost use Rattle.small_prefix.specs.Prefixes.{entries, Ready};
ghost use Rattle.small_order.specs.Indices.{free};

use small_prefix::Prefix;

// How many orders of n vertices there are.
#[tactic(auto, unfolding(model::specs::SmallOrders::number_of_orders, model::specs::SmallOrders::factorial))]
pub fn number_of_orders(n: usize) -> usize
    requires { n ≤ 8 }
    ensures { result ≡ number_of_orders n }
{
    if n == 0 {
        return 1;
    }
    orders_of(n - 1)
}

// The order with the index: the first n bytes.
pub fn order_of(n: usize, index: usize) -> [u8; 8]
    requires { (n ≤ 8) × (index < number_of_orders n) }
    ensures { take n result ≡ order_at n index }
{
    if n == 0 {
        return [0; 8];
    }
    let done = order_rest(n, Prefix::zero_first(), n - 1, index);
    done.places
}

// Each unplaced vertex leads as many orders of the rest: that which leads the one with the index is
// placed, and then the others.
fn order_rest(n: usize, p: Prefix, left: usize, index: usize) -> Prefix
    requires { Ready n left p × (index < factorial left) }
    ensures result_value { entries result ≡ rest_at n left (entries p) index }
    ensures full { result.size ≡ n }
{
    if left == 0 {
        return p;
    }
    let each = orders_of(left - 1);
    let v = unplaced_at(n, p.bits, index / each);
    let next = p.extended(v);
    order_rest(n, next, left - 1, index % each)
}

// The unplaced vertex with k lower ones, 0 where there is none: bits are those of the placed ones.
fn unplaced_at(n: usize, bits: u64, k: usize) -> usize
    requires { n ≤ 64 }
    ensures { result ≡ get_or (keep (free bits) (upto n)) k 0 }
{
    let mut lower = 0;
    for v in 0..n {
        if !words::is_set(bits, v) {
            if lower == k {
                return v;
            }
            lower += 1;
        }
    }
    0
}

// In how many orders k vertices can be put.
fn orders_of(k: usize) -> usize
    requires { k ≤ 7 }
    ensures { result ≡ factorial k }
{
    if k == 0 {
        return 1;
    }
    k * orders_of(k - 1)
}
