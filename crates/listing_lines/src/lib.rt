// The lines of a listing, written into a lent buffer from a place on. Each call answers the place
// behind what it wrote. Where there is no room it writes nothing, and answers the place itself.
#![tactic(auto)]

ghost use Rattle.std.specs.Prelude.{cond, ◌+◌, ◌*◌, ◌≤◌, length};
ghost use mathlib.Core.List.{◌++◌, flat_map};
ghost use Rattle.model.specs.Listing.{text, line, spaced};
ghost use Rattle.laws.specs.Buffers.Writing.{Written};
ghost use Rattle.text.specs.Room.{Put};

use decimals::{put_bytes, put_line};
use text::{lacks, put_text};

// The numbers of a listing, one to a line.
#[derive(Clone, Copy)]
pub struct Numbers {
    pub vertices: u64,
    pub edges: u64,
    pub before: u64,
    pub after: u64,
    pub rounds: u64,
}

pub fn put_numbers(out: &mut [u8], at: usize, x: Numbers) -> usize
    ensures { Put 150 out.old at
        (line "devices" (spaced x.vertices) ++ line "links" (spaced x.edges) ++ line "before" (spaced x.before)
        ++ line "after" (spaced x.after) ++ line "rounds" (spaced x.rounds))
        out.new result }
{
    if lacks(out.len(), at, 150) {
        return at;
    }
    five_lines(out, at, x)
}

// Whether the last round moved no vertex.
pub fn put_settled(out: &mut [u8], at: usize, converged: bool) -> usize
    ensures { Put 12 out.old at (line "settled" (text (cond converged " yes" " no"))) out.new result }
{
    if lacks(out.len(), at, 12) {
        return at;
    }
    if converged {
        put_text(out, at, b"settled yes\n")
    } else {
        put_text(out, at, b"settled no\n")
    }
}

// The order, with single spaces.
pub fn put_order_line(out: &mut [u8], at: usize, order: &[u8]) -> usize
    ensures { Put (4 * length order.now + 6) out.old at
        (line "order" (flat_map spaced order.now)) out.new result }
{
    if out.len() / 4 < order.len() || lacks(out.len(), at, 4 * order.len() + 6) {
        return at;
    }
    order_line(out, at, order)
}

fn five_lines(out: &mut [u8], at: usize, x: Numbers) -> usize
    requires { at + 150 ≤ length out.old }
    ensures { Written out.old at
        (line "devices" (spaced x.vertices) ++ line "links" (spaced x.edges) ++ line "before" (spaced x.before)
        ++ line "after" (spaced x.after) ++ line "rounds" (spaced x.rounds))
        out.new result × (result ≤ at + 150) }
{
    let links = put_line(out, at, b"devices", x.vertices);
    let before = put_line(out, links, b"links", x.edges);
    let after = put_line(out, before, b"before", x.before);
    let rounds = put_line(out, after, b"after", x.after);
    put_line(out, rounds, b"rounds", x.rounds)
}

fn order_line(out: &mut [u8], at: usize, order: &[u8]) -> usize
    requires { at + 4 * length order.now + 6 ≤ length out.old }
    ensures { Written out.old at (line "order" (flat_map spaced order.now)) out.new result
        × (result ≤ at + 4 * length order.now + 6) }
{
    let places = put_text(out, at, b"order");
    let end = put_bytes(out, places, order);
    put_text(out, end, b"\n")
}
