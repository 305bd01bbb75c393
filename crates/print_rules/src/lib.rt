// Document 01, module 4: what the text of an op list is, and what the functions of `print` come to: definitions and proofs. No function stands here.
// How many bytes a text takes, or that a code has no letter.
#![tactic(auto)]
