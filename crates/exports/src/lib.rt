// The static library, first part: fields, ops, lengths and bins, as include/cigar.h declares them.
#![tactic(auto)]

mod bin_calls;
mod field_calls;
mod length_calls;
mod op_calls;
