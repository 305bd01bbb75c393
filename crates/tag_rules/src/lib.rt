// Document 02, item 1: where the true op list of a record lies, in its op area or in its tag CG: definitions and proofs. No function stands here.
#![tactic(auto)]
