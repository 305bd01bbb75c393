// The static library, second part: text, ends, lookup, clipping, pairs and overhang, blocks, matches from MD, as include/cigar.h declares them.
#![tactic(auto)]

mod bed_calls;
mod clip_calls;
mod end_calls;
mod lookup_calls;
mod mate_calls;
mod md_calls;
mod overlap_calls;
mod text_calls;
