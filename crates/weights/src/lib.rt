// A table of weights (document 02, Note 8): the weight of u towards v stands at 64 * u + v. Of the library
// only this crate reads it, and weights_valid, which asks whether it fits. Calls of other crates are total: a
// vertex is taken modulo 64.
#![tactic(auto)]

mod light;
mod units;

ghost use Rattle.std.specs.Prelude.{◌≡◌, ℕ, ◌*◌, ◌%◌, ◌<◌, ◌≤◌, length};
ghost use Rattle.model.specs.Edits.{both_ways};
ghost use Rattle.laws.specs.Sums.Numbers.{Bounded};
ghost use Rattle.laws.specs.Tables.Rows.{table_weight, row_weight, row_sum, most_weight, most_sum, RowsOf};
ghost use Rattle.laws.specs.Tables.Rows.{AddedRow, TakenRow, ChangingUpTo, added_to, taken_from};

pub use light::all_unit;
pub use units::unit_table;

// The weight between two vertices.
pub fn weight_at(weights: &[u8; 4096], u: usize, v: usize) -> u32
    ensures { Bounded (table_weight weights.now (u % 64) (v % 64)) 255 result }
{
    entry(weights, u % 64, v % 64)
}

fn entry(weights: &[u8; 4096], u: usize, v: usize) -> u32
    requires { (u < 64) × (v < 64) }
    ensures { Bounded (table_weight weights.now u v) 255 result }
{
    u32::from(weights[64 * u + v])
}

// The weight of a vertex: the sum of its row.
pub fn row_weight(weights: &[u8; 4096], v: usize) -> u32
    ensures { Bounded (row_weight weights.now (v % 64)) most_weight result }
{
    row_total(weights, v % 64)
}

fn row_total(weights: &[u8; 4096], v: usize) -> u32
    requires { v < 64 }
    ensures { Bounded (row_weight weights.now v) most_weight result }
{
    let mut total = 0;
    for i in 0..64 {
        total += entry(weights, v, i);
    }
    total
}

// The weights of all vertices.
pub fn row_weights(weights: &[u8; 4096]) -> [u16; 64]
    ensures { RowsOf weights.now result }
{
    let mut rows = [0; 64];
    for (v, row) in rows.iter_mut().enumerate() {
        *row = row_total(weights, v) as u16;
    }
    rows
}

// The sum of a row, each weight times a number of 15 bits.
pub fn row_sum(weights: &[u8; 4096], v: usize, numbers: &[u16; 64]) -> u32
    ensures { Bounded (row_sum weights.now (v % 64) numbers.now) most_sum result }
{
    row_products(weights, v % 64, numbers)
}

fn row_products(weights: &[u8; 4096], v: usize, numbers: &[u16; 64]) -> u32
    requires { v < 64 }
    ensures { Bounded (row_sum weights.now v numbers.now) most_sum result }
{
    let mut total = 0;
    for i in 0..64 {
        total += product(entry(weights, v, i), numbers[i]);
    }
    total
}

// Of the number 15 bits.
fn product(a: u32, b: u16) -> u32
    requires { a ≤ 255 }
    ensures { Bounded (a * (b % 32768)) 8355585 result }
{
    let low = b % 32768;
    a * u32::from(low)
}

// A row added to 64 numbers, each modulo 2^16.
pub fn add_row(numbers: &mut [u16; 64], weights: &[u8; 4096], v: usize)
    ensures { length numbers.old ≡ 64 → AddedRow weights.now (v % 64) numbers.old numbers.new }
{
    change(numbers, weights, v % 64, grown)
}

// A row taken away from 64 numbers, each modulo 2^16.
pub fn sub_row(numbers: &mut [u16; 64], weights: &[u8; 4096], v: usize)
    ensures { length numbers.old ≡ 64 → TakenRow weights.now (v % 64) numbers.old numbers.new }
{
    change(numbers, weights, v % 64, lessened)
}

fn grown(x: u16, w: u16) -> u16
    ensures { result ≡ added_to x w }
{
    x.wrapping_add(w)
}

fn lessened(x: u16, w: u16) -> u16
    ensures { result ≡ taken_from x w }
{
    x.wrapping_sub(w)
}

// Each of 64 numbers changed by its weight in a row: f says what is made of the two.
fn change<F: Fn(u16, u16) -> u16>(numbers: &mut [u16; 64], weights: &[u8; 4096], v: usize, by: F)
    ghost f: { ℕ → ℕ → ℕ }
    requires row { v < 64 }
    requires callable { F.IsAlwaysCallable by }
    requires computes { (x w r : ℕ) → F.post by x w r → r ≡ f x w }
    ensures { length numbers.old ≡ 64 → ChangingUpTo f weights.now v numbers.old numbers.new 64 }
{
    for (y, number) in numbers.iter_mut().enumerate() {
        *number = by(*number, entry(weights, v, y) as u16);
    }
}

// A weight between two vertices, both ways round. Vertices are taken modulo 64.
pub fn set_both(weights: &mut [u8; 4096], a: usize, b: usize, w: u8)
    ensures { weights.new ≡ both_ways weights.old (a % 64) (b % 64) w }
{
    let u = a % 64;
    let v = b % 64;
    weights[64 * u + v] = w;
    weights[64 * v + u] = w;
}
