// The public types of the library. What the calls do with them is defined in specs/.

#![tactic(auto)]

mod refusal;
mod reports;

pub use refusal::Refusal;
pub use reports::refusal_number;

// A circular layout (document 01: a ring). Vertices (devices) are 0 to n - 1. The first n places
// of order hold them clockwise. Bit i of adjacency[v] (the neighbour word of v) is set exactly
// when v and i are joined by an edge (a link). The weight of u towards v stands at 64 * u + v of
// weights, 0 where there is no edge (document 02, Note 8). count is the carried count.
#[repr(C)]
#[derive(Clone, Copy)]
pub struct Layout {
    pub n: usize,
    pub order: [u8; 64],
    pub adjacency: [u64; 64],
    pub weights: [u8; 4096],
    pub count: u64,
}

// An edge (a link), the lower end first.
#[repr(C)]
#[derive(Clone, Copy)]
pub struct Edge {
    pub low: usize,
    pub high: usize,
}

// What a call by value gives: the changed layout, or the layout and what the call tells besides, or else the
// first check (question) that failed. specs/Answers.antt has the refusal number and the values of each answer.

// Sifting one vertex (sift): the reduction (saving), crossings before less crossings after; and how
// many of its candidate places have the least crossings.
#[derive(Clone, Copy)]
pub struct SiftSummary {
    pub reduction: u64,
    pub optima: u32,
}

// A sifting round (round): the summed reduction, how many vertices moved, and the summed optima.
#[derive(Clone, Copy)]
pub struct RoundSummary {
    pub reduction: u64,
    pub moved: u32,
    pub optima: u32,
}

// Sifting rounds until a local minimum or the limit (settle): the summed reduction, the rounds run,
// whether the last of them moved no vertex (settled), and the summed optima of all of them.
#[derive(Clone, Copy)]
pub struct ConvergeSummary {
    pub reduction: u64,
    pub rounds: u32,
    pub converged: bool,
    pub optima: u32,
}

// A field at the start of the bytes that are left of a chart: its tag and the length of its body.
#[derive(Clone, Copy)]
pub struct Header {
    pub tag: u8,
    pub length: usize,
}

// A call that changes a layout, with what it names: any numbers at all.
#[derive(Clone, Copy)]
pub enum Call {
    AddVertex,
    AddEdge(usize, usize, u8),
    RemoveEdge(usize, usize),
    MoveAfter(usize, usize),
    GreedyAppend(usize),
    Sift(usize),
    SiftingRound,
    Converge(usize),
}

// What any of these calls answers: the refusal code, the layout, and the further numbers of its answer in their sequence, 0 where it has fewer;
// a bool counts as 0 or 1. It keeps a refusal number: it is a row of the table that rl_play fills for C, and Demand3 (history) speaks of it.
#[derive(Clone, Copy)]
pub struct Outcome {
    pub refusal: u8,
    pub layout: Layout,
    pub first: u64,
    pub second: u64,
    pub third: u64,
    pub fourth: u64,
}

// How many numbers an answer takes in the table of a list of calls: its refusal code, and those of its outcome.
pub const ANSWER_WIDTH: usize = 5;

// How many numbers a call takes in a list: which one, what it names, and the weight of an edge.
pub const CALL_WIDTH: usize = 4;

// Where a list of calls starts: from the empty layout, from a chart, or from a graph in graph6.
#[derive(Clone, Copy)]
pub enum Origin {
    Empty,
    Chart,
    Graph6,
}

// What C gets, and no call by value answers: the C interface has no Result, so each struct keeps the refusal number beside the values.

// The carried count.
#[repr(C)]
#[derive(Clone, Copy)]
pub struct Counted {
    pub refusal: u8,
    pub count: u64,
}

// A layout written into a lent buffer, as a chart or in graph6: how many bytes that is, 0 where it is refused.
#[repr(C)]
#[derive(Clone, Copy)]
pub struct LayoutWritten {
    pub refusal: u8,
    pub length: usize,
}

// The crossings of every edge, in a lent table: how many edges there are, 0 where it is refused.
#[repr(C)]
#[derive(Clone, Copy)]
pub struct EdgesCounted {
    pub refusal: u8,
    pub edges: usize,
}

// The least crossings that any order of at most eight vertices has, 0 where it is refused. The order that
// has them is in a lent buffer.
#[repr(C)]
#[derive(Clone, Copy)]
pub struct LeastFound {
    pub refusal: u8,
    pub crossings: u64,
}

// A list of calls played: the refusal code, the layout at the end, and how many calls were played.
#[repr(C)]
#[derive(Clone, Copy)]
pub struct Played {
    pub refusal: u8,
    pub layout: Layout,
    pub calls: usize,
}

// What a call on a lent layout returns: its answer without the layout. A call that answers nothing further returns its refusal code alone.

#[repr(C)]
#[derive(Clone, Copy)]
pub struct AddReport {
    pub refusal: u8,
    pub vertex: usize,
}

#[repr(C)]
#[derive(Clone, Copy)]
pub struct AppendReport {
    pub refusal: u8,
    pub tally: u64,
}

#[repr(C)]
#[derive(Clone, Copy)]
pub struct SiftReport {
    pub refusal: u8,
    pub reduction: u64,
    pub optima: u32,
}

#[repr(C)]
#[derive(Clone, Copy)]
pub struct RoundReport {
    pub refusal: u8,
    pub reduction: u64,
    pub moved: u32,
    pub optima: u32,
}

#[repr(C)]
#[derive(Clone, Copy)]
pub struct ConvergeReport {
    pub refusal: u8,
    pub reduction: u64,
    pub rounds: u32,
    pub converged: bool,
    pub optima: u32,
}

// found says that two edges cross, and first and second are then the pair. Neither refused nor found: no two edges cross.
#[repr(C)]
#[derive(Clone, Copy)]
pub struct CrossingReport {
    pub refusal: u8,
    pub found: bool,
    pub first: Edge,
    pub second: Edge,
}
