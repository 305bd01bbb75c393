// Document 01, module 6: what a mate's text says, digit by digit and piece by piece, and that it is what the strict reader's list says: definitions and proofs. No function stands here.
#![tactic(auto)]
