// Document 01, module 10: what the overhang is, and what the functions of `overhang_places` and `overhang` come to: definitions and proofs. No function stands here.
#![tactic(auto)]
