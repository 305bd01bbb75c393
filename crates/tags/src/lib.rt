// Document 02, item 1: the reader of a record's true op list. It walks the tags only behind a placeholder, up to the first CG, and writes nothing. An inner crate:
// `true_cigar` has the calls over the list that it finds.
#![tactic(auto)]

ghost use Rattle.std.specs.Prelude.{◌≡◌, ◌≤◌, length};
ghost use Rattle.sam.specs.Record.{ops_start, op_count_of, ops_end, seq_len_of};
ghost use Rattle.sam.specs.Tags.{is_placeholder};
ghost use Rattle.oplist.specs.Ops.{record_ops};
ghost use Rattle.tag_rules.specs.Long.{behind_placeholder, true_list};

use answers::{Answer, Refusal};
use oplist::Area;

// Whether a record's ops are a placeholder.
fn is_placeholder(bam: &[u8], area: Area) -> bool
    requires in_bounds { 32 ≤ length bam.now }
    requires bam_in_bounds { ops_end bam.now ≤ length bam.now }
    requires at_value { (area.at ≡ ops_start bam.now) × (area.n ≡ op_count_of bam.now) }
    ensures { result ≡ is_placeholder (seq_len_of bam.now) (record_ops bam.now) }
{
    if area.n != 2 {
        return false;
    }
    let clip = little_endian::u32_at(bam, area.at);
    if clip % 16 != 4 {
        return false;
    }
    if clip / 16 != little_endian::u32_at(bam, 16) {
        return false;
    }
    little_endian::u32_at(bam, area.at + 4) % 16 == 3
}

// The list behind a placeholder. Refusals 12, 13 and 3.
fn behind_placeholder(bam: &[u8], area: Area) -> Answer<Area>
    requires in_bounds { 32 ≤ length bam.now }
    requires bam_in_bounds { ops_end bam.now ≤ length bam.now }
    requires at_value { (area.at ≡ ops_start bam.now) × (area.n ≡ op_count_of bam.now) }
    ensures { result ≡ behind_placeholder bam.now }
{
    let seq = little_endian::u32_at(bam, 16) as usize;
    let start = area.at + 4 * (area.n as usize) + (seq + 1) / 2 + seq;
    if bam.len() < start {
        return Err(Refusal::BadTags);
    }
    tag_walk::first_cg(bam, start, Ok(area))
}

// Where the true list of a record lies. Refusals 1, 2, 12, 13 and 3.
pub fn true_list(bam: &[u8]) -> Answer<Area>
    ensures { result ≡ true_list bam.now }
{
    if bam.len() < 32 {
        return Err(Refusal::ShortRecord);
    }
    let area = oplist::area_of(bam);
    if !oplist::inside(bam, area) {
        return Err(Refusal::AreaOverrun);
    }
    if !is_placeholder(bam, area) {
        return Ok(area);
    }
    behind_placeholder(bam, area)
}
