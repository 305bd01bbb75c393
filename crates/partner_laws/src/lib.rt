// Document 02, item 10: kept bases keep their partners, of every list and amount: definitions and proofs. No function stands here.
#![tactic(auto)]
