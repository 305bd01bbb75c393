// Document 01, module 8, and document 02, item 9: what lookup answers, and how many ops it examines: definitions and proofs. No function stands here.
#![tactic(auto)]

// A query position, counted from 1, or none; and how many ops were examined.
#[derive(Clone, Copy)]
pub struct Found {
    pub place: Option<u64>,
    pub examined: u32,
}
