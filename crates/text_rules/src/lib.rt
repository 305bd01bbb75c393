// What text is a CIGAR and what list is a valid mapped one (document 01, module 5), with the laws that tie both to `sam`. No function stands here.
#![tactic(auto)]
