// What is promised: theorems over the definitions of the other crates. No function stands here.
#![tactic(auto)]
