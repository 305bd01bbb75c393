// What a run of the program `bam_to_cgr` comes to, turn by turn: definitions and proofs. No function stands here.
#![tactic(auto)]

use bam_header::HeadPlace;
use blocks::Source;

// Where a stream was left: the place in its head, the bytes at hand and how many of them are used, what is known of the input, and whether the mark is written.
// `marked` is yes or no, and the definitions branch on it as that: an enum of two would be turned into a bool at each.
#[derive(Clone, Copy)]
pub struct BamState {
    pub place: HeadPlace,
    pub have: usize,
    pub used: usize,
    pub source: Source,
    pub marked: bool,
}
