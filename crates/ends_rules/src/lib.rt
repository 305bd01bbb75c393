// Document 01, module 7: what unclipped ends, start and end of a record are, and what they mean: definitions and proofs. No function stands here.
#![tactic(auto)]

use answers::{Pos1, Refusal};

// A record's unclipped 5' position: one of three answers, or the refusal.
#[derive(Clone, Copy)]
pub enum Unclipped {
    At(Pos1),
    Unmapped,
    NoOps,
}

// What the walk to the end has met: the reference bases, the S and H since the last reference op, the most that these came to, and whether there was a
// reference op.
#[derive(Clone, Copy)]
pub struct Tail {
    pub refs: u64,
    pub clips: u64,
    pub most: u64,
    pub saw: bool,
}
