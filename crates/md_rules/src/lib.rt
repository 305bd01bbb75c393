// Document 02, item 13: what MD makes of an op list, and what the functions of `md_text`, `md_runs` and `md` come to: definitions and proofs. No function stands here.
#![tactic(auto)]

// Where a text stands: a number has to begin; in a number; behind `^`; in the letters behind it; or it is no MD.
#[derive(Clone, Copy)]
pub enum Place {
    Wants,
    Number,
    Caret,
    Letters,
    Wrong,
}

// A number of a text, and the place behind it. Where none stands there, or one that is larger than any list of ops, there is no `Figure`.
#[derive(Clone, Copy)]
pub struct Figure {
    pub n: u64,
    pub at: usize,
}

// Where a walk stands: behind a number of the text, of which so many matches are left, with so many ops counted or written.
// The place is one in the whole text, of which every law speaks; what is left of the text as a slice would have to be counted back to it.
#[derive(Clone, Copy)]
pub struct Spot {
    pub at: usize,
    pub left: u64,
    pub count: usize,
}
