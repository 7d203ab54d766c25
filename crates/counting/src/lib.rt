// The crossings of an order whose edges weigh (document 02, Note 8), counted over pairs of places j < k:
// the weight of all vertices before j towards k, times the weight of j towards all behind k.
#![tactic(auto)]

ghost use Rattle.std.specs.Prelude.{◌≡◌, ◌≤◌, ◌<◌};
ghost use Rattle.laws.specs.Tables.Rows.{table_weight};
ghost use Rattle.laws.specs.Tables.Counts.{counted};
ghost use Rattle.counting.specs.Loops.{Before, RowCounted};

use model::Layout;

// The crossings of a valid layout.
pub fn crossings_of(l: Layout) -> u64
    ensures { result ≡ counted l.n l.order (table_weight l.weights) }
{
    let order = l.order;
    let weights = l.weights;
    count_crossings(l.n, &order, &weights)
}

// Of a valid layout these are its crossings; for any other bytes it is the same sum, with entries of
// the order taken modulo 64.
pub fn count_crossings(n: usize, order: &[u8; 64], weights: &[u8; 4096]) -> u64
    ensures { result ≡ counted n order.now (table_weight weights.now) }
{
    if 64 < n {
        return 0;
    }
    let mut before = [0u16; 64];
    let mut total: u64 = 0;
    for j in 0..n {
        total += count_row(n, order, weights, &before, j);
        let u = (order[j] % 64) as usize;
        weights::add_row(&mut before, weights, u);
    }
    total
}

// The pairs of place j with every later place, from the last one down. before has the weight of all
// before j towards each vertex.
fn count_row(n: usize, order: &[u8; 64], weights: &[u8; 4096], before: &[u16; 64], j: usize) -> u64
    requires { (n ≤ 64) × (j < n) × Before order.now weights.now before.now j }
    ensures { RowCounted n order.now weights.now j result }
{
    let u = (order[j] % 64) as usize;
    let mut beyond: u32 = 0;
    let mut total: u64 = 0;
    for k in (j + 1..n).rev() {
        let x = (order[k] % 64) as usize;
        total += u64::from(before[x]) * u64::from(beyond);
        beyond += weights::weight_at(weights, u, x);
    }
    total
}
