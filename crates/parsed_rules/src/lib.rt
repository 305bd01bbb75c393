// Document 01, module 5: what the strict reader answers of a text, and its measuring pass: definitions and proofs. No function stands here.
#![tactic(auto)]

// Of a valid mapped CIGAR its ops, and its reference bases, at most 2^31 - 1; or that it is none.
#[derive(Clone, Copy)]
pub struct Measured {
    pub ops: u64,
    pub refs: i32,
}
