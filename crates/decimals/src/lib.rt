// Numbers in decimal, each behind a space, written into a lent buffer from a place on. Each call
// answers the place behind what it wrote. Where there is no room it writes nothing, and answers the
// place itself.
#![tactic(auto)]

ghost use mathlib.Core.List.{◌++◌, flat_map};
ghost use Rattle.std.specs.Prelude.{◌+◌, ◌*◌, ◌≤◌, length};
ghost use Rattle.model.specs.Listing.{text, decimal, spaced};
ghost use Rattle.laws.specs.Buffers.Writing.{Written};
ghost use Rattle.text.specs.Room.{Put};

use text::{lacks, put_text};

// Any number, where there is room for the longest.
pub fn put_number(out: &mut [u8], at: usize, x: u64) -> usize
    ensures { Put 21 out.old at (spaced x) out.new result }
{
    put_at_most(out, at, x, 21)
}

// A number below 256.
pub fn put_small(out: &mut [u8], at: usize, x: u8) -> usize
    ensures { Put 4 out.old at (spaced x) out.new result }
{
    put_at_most(out, at, u64::from(x), 4)
}

// A number of at most so many bytes, its space counted.
fn put_at_most(out: &mut [u8], at: usize, x: u64, most: usize) -> usize
    requires { length (spaced x) ≤ most }
    ensures { Put most out.old at (spaced x) out.new result }
{
    if lacks(out.len(), at, most) {
        return at;
    }
    put_spaced(out, at, x)
}

// Each byte as a number.
pub fn put_bytes(out: &mut [u8], at: usize, bytes: &[u8]) -> usize
    ensures { Put (4 * length bytes.now) out.old at (flat_map spaced bytes.now) out.new result }
{
    if out.len() / 4 < bytes.len() || lacks(out.len(), at, 4 * bytes.len()) {
        return at;
    }
    each_byte(out, at, bytes)
}

// A line with a name and a number.
pub fn put_line(out: &mut [u8], at: usize, name: &[u8], x: u64) -> usize
    ensures { Put (length name.now + 22) out.old at (name.now ++ spaced x ++ text "\n") out.new result }
{
    if lacks(out.len(), at, name.len() + 22) {
        return at;
    }
    named_line(out, at, name, x)
}

fn named_line(out: &mut [u8], at: usize, name: &[u8], x: u64) -> usize
    requires { at + length name.now + 22 ≤ length out.old }
    ensures { Written out.old at (name.now ++ spaced x ++ text "\n") out.new result
        × (result ≤ at + length name.now + 22) }
{
    let number = put_text(out, at, name);
    let end = put_number(out, number, x);
    put_text(out, end, b"\n")
}

fn each_byte(out: &mut [u8], at: usize, bytes: &[u8]) -> usize
    requires { at + 4 * length bytes.now ≤ length out.old }
    ensures { Written out.old at (flat_map spaced bytes.now) out.new result × (result ≤ at + 4 * length bytes.now) }
{
    let mut to = at;
    for &byte in bytes {
        to = put_small(out, to, byte);
    }
    to
}

fn put_spaced(out: &mut [u8], at: usize, x: u64) -> usize
    requires { at + length (spaced x) ≤ length out.old }
    ensures { Written out.old at (spaced x) out.new result }
{
    let digits = put_text(out, at, b" ");
    put_decimal(out, digits, x)
}

fn put_decimal(out: &mut [u8], at: usize, x: u64) -> usize
    requires { at + length (decimal x) ≤ length out.old }
    ensures { Written out.old at (decimal x) out.new result }
{
    let mut digits = [0u8; 20];
    let count = io::decimal(x, &mut digits);
    put_text(out, at, &digits[..count])
}
