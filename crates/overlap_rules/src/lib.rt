// Document 01, module 10: what the overhang of a record past its mate is, and that it never exceeds the query length: definitions and proofs. No function stands here.
#![tactic(auto)]

use answers::Pos1;

// Where a read and its mate lie, counted from 1.
#[derive(Clone, Copy)]
pub struct PairPlaces {
    pub own: Pos1,
    pub mate: Pos1,
}

// The query bases past the mate, and the ops written.
#[derive(Clone, Copy)]
pub struct Overhang {
    pub bases: u64,
    pub written: u64,
}
