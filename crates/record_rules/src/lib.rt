// Document 02, item 8: what the clipped record is, and what planning it comes to: definitions and proofs. No function stands here.
#![tactic(auto)]

use answers::Refusal;
use clip_rules::Plan;

// How a record changes: the plan of its ops, their number, the new position, bin and l_seq, the first base and quality that stay, and the count.
// It belongs to the record that it was made for. A field can't name that record, so `Fits` ties the two in the contract of each function that takes both.
#[derive(Clone, Copy)]
pub struct RecordPlan {
    pub ops: Plan,
    pub n: u32,
    pub place: i32,
    pub bin: u32,
    pub len: u32,
    pub from: u32,
    pub count: u64,
}
