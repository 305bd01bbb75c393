// Document 02, item 1: the ends of a record's true op list, which may stand in its tag CG: its unclipped position, and clipping at either end. Each is what is made of a
// record's own list, over the list that `tags` finds.
#![tactic(auto)]

ghost use Rattle.std.specs.Prelude.{◌≡◌};
ghost use Rattle.answers.specs.Settled.{Settled};
ghost use Rattle.true_rules.specs.True.{true_unclipped, true_start, true_end};

use answers::{Answer, Refusal};
use clip_rules::Clipped;
use ends_rules::Unclipped;
use oplist::OpList;

// The unclipped 5' position by the true list, or that the record is unmapped, which is asked before the list is looked for, or that it has no ops. Refusals 1, 2, 12, 13, 3 and 4.
pub fn true_unclipped_5prime_from_raw_bam(bam: &[u8]) -> Answer<Unclipped>
    ensures { result ≡ true_unclipped bam.now }
{
    if bam.len() < 32 {
        return Err(Refusal::ShortRecord);
    }
    let flags = little_endian::u16_at(bam, 14);
    if fields::is_unmapped(flags) {
        return Ok(Unclipped::Unmapped);
    }
    let area = tags::true_list(bam)?;
    unclipped::unclipped_by(
        oplist::ops_at(bam, area),
        fields::own_place(bam),
        fields::is_reverse(flags),
    )
}

// Clips `amount` bases at the start of the true list: the ops written, and the reference length taken. Refusals 1, 2, 12, 13, 3, 8, 19 and 6.
pub fn true_clip_cigar_start(bam: &[u8], amount: u64, out: &mut [u32]) -> Answer<Clipped>
    ensures { Settled (true_start bam.now amount out.old) result out.new }
{
    let area = tags::true_list(bam)?;
    let list = oplist::ops_at(bam, area);
    clip::clip_start(list, list.count(), amount, out)
}

// The same at the end: the ops written.
pub fn true_clip_cigar_end(bam: &[u8], amount: u64, out: &mut [u32]) -> Answer<u64>
    ensures { Settled (true_end bam.now amount out.old) result out.new }
{
    let area = tags::true_list(bam)?;
    let list = oplist::ops_at(bam, area);
    clip::clip_end(list, list.count(), amount, out)
}
