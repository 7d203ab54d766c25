// The bits of a graph's pairs, packed six to a byte as graph6 has them. An n above 64 is taken as 64.
#![tactic(auto)]

ghost use Rattle.std.specs.Prelude.{◌≡◌, cond, suc, ◌+◌, ◌-◌, ◌/◌, ◌%◌, ◌^◌, ◌≤◌, ◌<◌, min, get_or, set};
ghost use Rattle.model.specs.Graph6.{pair_bits};
ghost use Rattle.laws.specs.Graph6.Packing.{packed_in};

use graph6_pairs::pair_place;

// Room for the pairs of 64 vertices. A byte behind the last bit has no bit set.
pub fn pack_pairs(n: usize, adjacency: &[u64; 64]) -> [u8; 336]
    ensures { result ≡ packed_in 336 (pair_bits (min n 64) adjacency.now) }
{
    let mut bytes = [63u8; 336];
    for b in 0..n.min(64) {
        pack_lower(b, adjacency, &mut bytes);
    }
    bytes
}

// The pairs whose higher end is b, behind those of lower vertices.
fn pack_lower(b: usize, adjacency: &[u64; 64], bytes: &mut [u8; 336])
    requires { (b < 64) × (bytes.old ≡ packed_in 336 (pair_bits b adjacency.now)) }
    ensures { bytes.new ≡ packed_in 336 (pair_bits (suc b) adjacency.now) }
{
    for a in 0..b {
        pack_bit(pair_place(a, b), words::is_set(adjacency[a], b), bytes);
    }
}

// Bit k, if it is set: added to its byte, which does not have it yet.
fn pack_bit(k: usize, is_set: bool, bytes: &mut [u8; 336])
    requires { (k < 2016) × (get_or bytes.old (k / 6) 0 + 2 ^ (5 - k % 6) ≤ 126) }
    ensures { let i = k / 6 in
        bytes.new ≡ cond is_set (set bytes.old i (get_or bytes.old i 0 + 2 ^ (5 - k % 6))) bytes.old }
{
    if is_set {
        bytes[k / 6] += 32 >> (k % 6);
    }
}
