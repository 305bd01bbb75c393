// Document 02, item 1: what the calls on a record's true op list answer. No function stands here.
#![tactic(auto)]
