// The SAM specification: definitions and their laws. No function stands here.
#![tactic(auto)]
