// A list of vertices that grows at both ends, held in the middle of a buffer. Each method holds
// for any line: a vertex is taken modulo 64, a place modulo 128, and what is written modulo 65. For
// 64 vertices or fewer, beginning with one in the middle, that changes nothing.
#![tactic(auto)]

ghost use Rattle.std.specs.Prelude.{◌≡◌, ◌≤◌, length};
ghost use Rattle.append_line.specs.Lines.{alone_at, at_front, at_back, rest_of, placed_in, written_over};

// The size places from first on are taken. An array with a size beside it: the library has no heap.
#[derive(Clone, Copy)]
pub struct Line {
    pub places: [u8; 128],
    pub first: usize,
    pub size: usize,
}

impl Line {
    // One vertex, with room for 63 more at either end.
    #[tactic(auto, unfolding(crate::specs::Lines::alone_at))]
    pub fn alone(v: usize) -> Line
        ensures { result ≡ alone_at v }
    {
        let mut places = [0; 128];
        places[64] = (v % 64) as u8;
        Line {
            places,
            first: 64,
            size: 1,
        }
    }

    #[tactic(auto, unfolding(crate::specs::Lines::at_front))]
    pub fn put_front(&mut self, v: usize)
        ensures { self.new ≡ at_front self.old v }
    {
        let first = (self.first % 128 + 127) % 128;
        self.places[first] = (v % 64) as u8;
        self.first = first;
        self.size = self.size % 128 + 1;
    }

    #[tactic(auto, unfolding(crate::specs::Lines::at_back))]
    pub fn put_back(&mut self, v: usize)
        ensures { self.new ≡ at_back self.old v }
    {
        let end = (self.first % 128 + self.size % 128) % 128;
        self.places[end] = (v % 64) as u8;
        self.size = self.size % 128 + 1;
    }

    // Every vertex that is not placed, at the back in rising number.
    #[tactic(auto, unfolding(crate::specs::Lines::rest_of))]
    pub fn put_rest(&mut self, n: usize, placed: u64)
        ensures { self.new ≡ rest_of self.old placed n }
    {
        for v in 0..n {
            if !words::is_set(placed, v) {
                self.put_back(v);
            }
        }
    }

    // The list, a byte each.
    pub fn placed(&self) -> &[u8]
        ensures value { result.now ≡ placed_in self.now }
        ensures few { length result.now ≤ 64 }
    {
        let first = self.first % 65;
        let end = first + self.size % 65;
        &self.places[first..end]
    }

    // The list over the first places of an order, whose other places stay.
    pub fn written(&self, mut order: [u8; 64]) -> [u8; 64]
        ensures { result ≡ written_over self.now order }
    {
        let placed = self.placed();
        order[..placed.len()].copy_from_slice(placed);
        order
    }
}
