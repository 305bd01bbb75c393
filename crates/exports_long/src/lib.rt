// The static library, third part: long op lists, lent or in a record's tag CG, as include/cigar.h declares them.
#![tactic(auto)]

mod list_calls;
mod true_calls;
