// Why a call is refused (document 01: the question that was answered "no"), each with its number.
ghost use Rattle.std.specs.Prelude.{◌≡◌, Result};
ghost use Rattle.model.specs.Answers.{number, refusal_number};

#[derive(Clone, Copy)]
pub enum Refusal {
    // 1: a chart has more than 8,192 bytes
    TooLong,
    // 2: a chart does not divide exactly into fields
    Undivided,
    // 3: a chart has other fields, or in another sequence
    WrongTags,
    // 4: the body of a chart's field 44 is no number of vertices
    NoSize,
    // 5: the body of a chart's field 4C has an odd length
    OddLinks,
    // 6: a link of a chart has an end that is not there, or two ends alike
    NoEdge,
    // 7: a chart has a link twice
    RepeatedEdge,
    // 8: the body of a chart's field 52 is no order of the vertices
    NoOrder,
    // 11: the layout is not valid
    NotValid,
    // 12: a named vertex is not there
    NoVertex,
    // 13: the two named vertices are one
    SameVertex,
    // 14: the two vertices are joined
    Joined,
    // 15: the two vertices are not joined
    NotJoined,
    // 16: the layout has 64 vertices
    Full,
    // 17: the limit is not from 1 to 1000
    WrongLimit,
    // 18: the lent buffer is shorter than the order
    ShortOrder,
    // 19: the lent buffer is shorter than what is written
    ShortBuffer,
    // 20: a graph in graph6 does not start with a number of vertices up to 64
    NoGraphSize,
    // 21: a graph in graph6 has not the bytes of its pairs
    WrongBits,
    // 22: a graph in graph6 has a bit set behind its pairs
    PaddingSet,
    // 23: the lent table has fewer entries than there are edges
    ShortTable,
    // 24: a chart's field 57 has not one byte for each link
    WeightCount,
    // 25: a weight is 0
    ZeroWeight,
    // 26: a weight is above 1
    Weighted,
    // 27: the layout has more than eight vertices
    NotSmall,
    // 28: the index is not below the number of orders
    NoSuchOrder,
}

impl Refusal {
    #[tactic(auto, unfolding(crate::specs::Answers::number))]
    // The number that document 01 or a request of document 02 gives it.
    pub fn number(self) -> u8
        ensures { result ≡ number self }
    {
        match self {
            Refusal::TooLong => 1,
            Refusal::Undivided => 2,
            Refusal::WrongTags => 3,
            Refusal::NoSize => 4,
            Refusal::OddLinks => 5,
            Refusal::NoEdge => 6,
            Refusal::RepeatedEdge => 7,
            Refusal::NoOrder => 8,
            Refusal::NotValid => 11,
            Refusal::NoVertex => 12,
            Refusal::SameVertex => 13,
            Refusal::Joined => 14,
            Refusal::NotJoined => 15,
            Refusal::Full => 16,
            Refusal::WrongLimit => 17,
            Refusal::ShortOrder => 18,
            Refusal::ShortBuffer => 19,
            Refusal::NoGraphSize => 20,
            Refusal::WrongBits => 21,
            Refusal::PaddingSet => 22,
            Refusal::ShortTable => 23,
            Refusal::WeightCount => 24,
            Refusal::ZeroWeight => 25,
            Refusal::Weighted => 26,
            Refusal::NotSmall => 27,
            Refusal::NoSuchOrder => 28,
        }
    }
}
