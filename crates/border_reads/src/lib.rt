// How the answers of the unclipped position, clipping, lookup, the overhang by text and the blocks cross the C border. An inner crate of the static library `exports_reads`.
// Functions and no `From`: an answer and its struct are both of other crates, and an impl of std's trait between the two is refused (`orphan-impl`).
#![tactic(auto)]

ghost use Rattle.std.specs.Prelude.{◌≡◌};
ghost use Rattle.bed_rules.specs.Bed.{tell_bed};
ghost use Rattle.ends_rules.specs.Ends.{tell_unclipped};
ghost use Rattle.clip_rules.specs.Answer.{tell_clipped};
ghost use Rattle.lookup_rules.specs.Lookup.{tell_found};
ghost use Rattle.overlap_rules.specs.Overlap.{tell_overhang};
ghost use Rattle.border.specs.Border.{position_of, two_of, lookup_of, blocks_of};

use answers::Answer;
use bed_rules::Bed;
use border::{ToldBlocks, ToldLookup, ToldPosition, ToldTwo};
use clip_rules::Clipped;
use ends_rules::Unclipped;
use lookup_rules::Found;
use overlap_rules::Overhang;

// A position, unmapped, or no ops.
pub fn told_unclipped(answer: Answer<Unclipped>) -> ToldPosition
    ensures { result ≡ position_of (tell_unclipped answer) }
{
    match answer {
        Ok(Unclipped::At(p)) => ToldPosition {
            value: p.0,
            ..Default::default()
        },
        Ok(Unclipped::Unmapped) => ToldPosition {
            which: 1,
            ..Default::default()
        },
        Ok(Unclipped::NoOps) => ToldPosition {
            which: 2,
            ..Default::default()
        },
        Err(why) => ToldPosition {
            refusal: answers::number(why),
            ..Default::default()
        },
    }
}

// The ops written and the count.
pub fn told_clipped(answer: Answer<Clipped>) -> ToldTwo
    ensures { result ≡ two_of (tell_clipped answer) }
{
    answer.map(|c| (c.written, c.lost)).into()
}

// A place or none, and how many ops were examined.
pub fn told_found(answer: Answer<Found>) -> ToldLookup
    ensures { result ≡ lookup_of (tell_found answer) }
{
    match answer {
        Ok(f) => ToldLookup {
            refusal: 0,
            found: f.place.is_some(),
            examined: f.examined,
            value: f.place.unwrap_or(0),
        },
        Err(why) => ToldLookup {
            refusal: border::short_number(why),
            ..Default::default()
        },
    }
}

// The overhang and the ops written.
pub fn told_overhang(answer: Answer<Overhang>) -> ToldTwo
    ensures { result ≡ two_of (tell_overhang answer) }
{
    answer.map(|o| (o.bases, o.written)).into()
}

// chromStart, chromEnd and blockCount.
pub fn told_blocks(answer: Answer<Bed>) -> ToldBlocks
    ensures { result ≡ blocks_of (tell_bed answer) }
{
    match answer {
        Ok(bed) => ToldBlocks {
            refusal: 0,
            chrom_start: bed.chrom_start,
            chrom_end: bed.chrom_end,
            block_count: bed.block_count,
        },
        Err(why) => ToldBlocks {
            refusal: answers::number(why),
            ..Default::default()
        },
    }
}
