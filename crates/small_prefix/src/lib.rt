// The first vertices of an order of at most eight (document 02, Note 10), as a list and as bits. Holds for
// any prefix: a vertex is taken modulo 64 and a place modulo 8, which changes nothing for what fits.
#![tactic(auto)]

ghost use Rattle.std.specs.Prelude.{◌≡◌};
ghost use Rattle.small_prefix.specs.Prefixes.{alone, next_of};

// An array with a size beside it: the library has no heap.
#[derive(Clone, Copy)]
pub struct Prefix {
    pub places: [u8; 8],
    pub size: usize,
    pub bits: u64,
}

impl Prefix {
    // Vertex 0 alone.
    pub fn zero_first() -> Prefix
        ensures { result ≡ alone }
    {
        Prefix {
            places: [0; 8],
            size: 1,
            bits: 1,
        }
    }

    // One further vertex behind them.
    #[tactic(auto, using(laws::specs::Sums::Bits::set_within), unfolding(crate::specs::Prefixes::next_of))]
    pub fn extended(self, v: usize) -> Prefix
        ensures { result ≡ next_of self v }
    {
        let at = self.size % 8;
        let vertex = v % 64;
        let mut places = self.places;
        places[at] = vertex as u8;
        Prefix {
            places,
            size: at + 1,
            bits: words::set(self.bits, vertex),
        }
    }
}
