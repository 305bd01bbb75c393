// Document 01, section Program: what the line of a record is, and what the functions of `report_line` come to: definitions and proofs. No function stands here.
#![tactic(auto)]

use ends_rules::Unclipped;

// What the line has behind the text.
#[derive(Clone, Copy)]
pub struct LineRow {
    pub refs: i32,
    pub query: u64,
    pub five: Unclipped,
    pub bin: u32,
    pub mark: u8,
}
