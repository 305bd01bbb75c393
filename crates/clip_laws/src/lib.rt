// What is promised of clipping beside its contract: definitions and proofs. No function stands here.
#![tactic(auto)]
