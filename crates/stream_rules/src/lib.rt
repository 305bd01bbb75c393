// Document 01, section Program: what is printed of a stream, wherever it is cut into blocks: definitions and proofs. No function stands here.
// What comes next in a stream: a record of so many bytes behind its size, one of the ways to end, or more of it has to be read first.
#![tactic(auto)]

#[derive(Clone, Copy)]
pub enum NextFrame {
    Record(usize),
    TooLong,
    CutShort,
    End,
    More,
}

// How far a block of input went: the bytes used, the records in all, the bytes of output, and what comes next.
#[derive(Clone, Copy)]
pub struct Block {
    pub used: usize,
    pub records: u64,
    pub put: usize,
    pub next: NextFrame,
}
