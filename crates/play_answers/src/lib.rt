// The answer line: a name and a refusal number, the call's own answers, and the layout that then
// stands.
#![tactic(auto)]

ghost use Rattle.std.specs.Prelude.{◌≡◌, ◌+◌, ◌*◌, ◌≤◌, length};

use decimals::{put_bytes, put_number, put_small};
use model::Layout;
use text::put_text;

// What a record did: how many bytes of the line are written, and the layout that then stands; none where
// the list ends here.
#[derive(Clone, Copy)]
pub struct Played {
    pub written: usize,
    pub next: Option<Layout>,
}

// A record that prints nothing.
pub fn silent(l: Layout) -> Played
    ensures { result.written ≡ 0 }
{
    Played {
        written: 0,
        next: Some(l),
    }
}

// The name and the refusal number.
pub fn put_head(line: &mut [u8], name: &[u8], refusal: u8) -> usize
    ensures { result ≤ length name.now + 4 }
{
    let at = put_text(line, 0, name);
    put_small(line, at, refusal)
}

// Each number in turn.
pub fn put_numbers(line: &mut [u8], at: usize, numbers: &[u64]) -> usize
    ensures { result ≤ at + 21 * length numbers.now }
{
    let mut end = at;
    for &number in numbers {
        end = put_number(line, end, number);
    }
    end
}

// The line's second half, from place at on: the layout that now stands, and the words and weights that
// differ from those before.
pub fn told(line: &mut [u8], at: usize, before: Layout, after: Layout) -> Played
    ensures { result.written ≤ at + 51083 }
{
    let fields_end = put_fields(line, at, &after);
    let words_end = put_words(line, fields_end, &before.adjacency, &after.adjacency);
    let weights_end = put_weights(line, words_end, &before.weights, &after.weights);
    Played {
        written: put_text(line, weights_end, b"\n"),
        next: Some(after),
    }
}

// The same for a call that only reads: no word and no weight differs, so that the line has room for a
// whole table before them.
pub fn told_same(line: &mut [u8], at: usize, l: Layout) -> Played
    ensures { result.written ≤ at + 331 }
{
    let fields_end = put_fields(line, at, &l);
    Played {
        written: put_text(line, fields_end, b" words weights\n"),
        next: Some(l),
    }
}

fn put_fields(line: &mut [u8], at: usize, l: &Layout) -> usize
    ensures { result ≤ at + 316 }
{
    let n_end = put_field(line, at, b" n", l.n as u64);
    let order_name_end = put_text(line, n_end, b" order");
    let order_end = put_bytes(line, order_name_end, &l.order);
    put_field(line, order_end, b" count", l.count)
}

fn put_field(line: &mut [u8], at: usize, name: &[u8], number: u64) -> usize
    ensures { result ≤ at + length name.now + 21 }
{
    let end = put_text(line, at, name);
    put_number(line, end, number)
}

// The number and the value of each word that differs from the one before.
fn put_words(line: &mut [u8], at: usize, before: &[u64; 64], after: &[u64; 64]) -> usize
    ensures { result ≤ at + 1606 }
{
    let mut end = put_text(line, at, b" words");
    for v in 0..64 {
        if before[v] != after[v] {
            let number_end = put_small(line, end, v as u8);
            end = put_number(line, number_end, after[v]);
        }
    }
    end
}

// The two vertices and the value of each weight that differs from the one before.
fn put_weights(line: &mut [u8], at: usize, before: &[u8; 4096], after: &[u8; 4096]) -> usize
    ensures { result ≤ at + 49160 }
{
    let mut end = put_text(line, at, b" weights");
    for i in 0..4096 {
        if before[i] != after[i] {
            end = put_bytes(line, end, &[(i / 64) as u8, (i % 64) as u8, after[i]]);
        }
    }
    end
}
