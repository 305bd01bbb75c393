// Document 01, module 9: what clipping answers, and what the functions of `clip_taking`, `clip_plan` and `clip` come to: definitions and proofs. No function stands here.
#![tactic(auto)]

use answers::Refusal;

// The ops written and the count, or the refusal.
#[derive(Clone, Copy)]
pub struct Clipped {
    pub written: u64,
    pub lost: u64,
}

// A clipped list, as seen from the chosen end: the first `heads` of `first` and `second`, then the
// ops from place `skip` on. `lost` is the reference length taken.
#[derive(Clone, Copy)]
pub struct Plan {
    pub skip: usize,
    pub heads: usize,
    pub first: u32,
    pub second: u32,
    pub lost: u64,
}
