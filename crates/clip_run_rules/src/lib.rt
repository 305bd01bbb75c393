// Document 01, modules 7 and 9: the runs of clips that an op list begins and ends with: definitions and proofs. No function stands here.
#![tactic(auto)]
