// Document 01, module 11: what the bin of a region and of a record is, and that it is the smallest that holds the region: definitions and proofs. No function stands here.
#![tactic(auto)]
