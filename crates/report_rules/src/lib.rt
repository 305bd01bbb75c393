// Document 01, section Program: what the turns of `report` come to, each a read, lines that are put and a write: definitions and proofs. No function stands here.
#![tactic(auto)]

use blocks::Source;

// The bytes at hand and what is known of the input behind them, the records so far, the bytes that wait to be written, and whether reading goes on.
// `going` is yes or no, and the definitions branch on it as that: an enum of two would be turned into a bool at each.
#[derive(Clone, Copy)]
pub struct State {
    pub have: usize,
    pub source: Source,
    pub records: u64,
    pub put: usize,
    pub going: bool,
}
