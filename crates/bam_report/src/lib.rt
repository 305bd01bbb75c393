// What the programs `bam_to_cgr` and `report` print together: definitions and proofs. No function stands here.
#![tactic(auto)]
