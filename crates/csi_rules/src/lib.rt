// Document 02, item 11: what CSI bins are, that one is the smallest that holds the region, and which are listed: definitions and proofs. No function stands here.
#![tactic(auto)]

// The first and the last place of a region.
#[derive(Clone, Copy)]
pub struct Region {
    pub first: u64,
    pub last: u64,
}
