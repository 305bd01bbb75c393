// Document 01, module 3: what the lengths of op lists are, lent or in a record: definitions and proofs. No function stands here.
#![tactic(auto)]

use answers::Refusal;

// The soft and hard bases of a run of clips.
#[derive(Clone, Copy)]
pub struct Clips {
    pub soft: u64,
    pub hard: u64,
}

// A record's reference and query length, and the clips at both ends.
#[derive(Clone, Copy)]
pub struct RecordLengths {
    pub reference: i32,
    pub query: u64,
    pub leading: Clips,
    pub trailing: Clips,
}
