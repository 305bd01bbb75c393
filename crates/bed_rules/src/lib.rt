// Document 02, item 5: which blocks an alignment has, and what the functions of `bed_walk` and `bed` come to: definitions and proofs. No function stands here.
#![tactic(auto)]

// chromStart, chromEnd and blockCount, or the refusal.
#[derive(Clone, Copy)]
pub struct Bed {
    pub chrom_start: u32,
    pub chrom_end: u32,
    pub block_count: u32,
}

// How many blocks a list has, and its reference length; or no line can be made of it.
#[derive(Clone, Copy)]
pub struct Measured {
    pub blocks: usize,
    pub refs: u64,
}
