// Layouts with one field set, to whatever a record says. A place that is not there sets nothing.
use model::Layout;

pub fn with_n(l: Layout, n: u64) -> Layout {
    Layout { n: n as usize, ..l }
}

pub fn with_place(mut l: Layout, place: u64, vertex: u64) -> Layout {
    set(&mut l.order, place, (vertex % 256) as u8);
    l
}

pub fn with_word(mut l: Layout, place: u64, word: u64) -> Layout {
    set(&mut l.adjacency, place, word);
    l
}

pub fn with_count(l: Layout, count: u64) -> Layout {
    Layout { count, ..l }
}

// The weight of one vertex towards another, one way round.
pub fn with_weight(mut l: Layout, from: u64, to: u64, weight: u64) -> Layout {
    if from < 64 && to < 64 {
        set(&mut l.weights, 64 * from + to, (weight % 256) as u8);
    }
    l
}

fn set<T: Copy>(entries: &mut [T], place: u64, entry: T) {
    if let Some(there) = entries.get_mut(place as usize) {
        *there = entry;
    }
}
