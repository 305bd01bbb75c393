// Document 02, item 14: what the receiving check answers: definitions and proofs. No function stands here.
#![tactic(auto)]

// The parts of a record, in the order in which they are compared, with their numbers.
#[derive(Clone, Copy)]
pub enum Part {
    Header = 1,
    Name = 2,
    Ops = 3,
    Bases = 4,
    Qualities = 5,
    Tags = 6,
}
