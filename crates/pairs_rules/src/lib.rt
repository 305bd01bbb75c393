// Document 01, module 10: what the pair tests answer, and which fields they need: definitions and proofs. No function stands here.
#![tactic(auto)]
