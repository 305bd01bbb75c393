// Clipping.
ghost use Rattle.answers.specs.Answers.{tell_count};
ghost use Rattle.answers.specs.Settled.{Settled};
ghost use Rattle.clip_rules.specs.Answer.{clipped_start, clipped_end, record_start, record_end, tell_clipped};
ghost use Rattle.border.specs.Border.{count_of, two_of, across};

use border::{ToldCount, ToldTwo};

#[unsafe(no_mangle)]
pub extern "C" fn cigar_clip_cigar_start_raw(ops: &[u32], amount: u64, out: &mut [u32]) -> ToldTwo
    ensures { Settled (across two_of tell_clipped (clipped_start ops.now amount out.old)) result out.new }
{
    border_reads::told_clipped(clip::clip_cigar_start_raw(ops, amount, out))
}

#[unsafe(no_mangle)]
pub extern "C" fn cigar_clip_cigar_end_raw(ops: &[u32], amount: u64, out: &mut [u32]) -> ToldCount
    ensures { Settled (across count_of tell_count (clipped_end ops.now amount out.old)) result out.new }
{
    clip::clip_cigar_end_raw(ops, amount, out).into()
}

#[unsafe(no_mangle)]
pub extern "C" fn cigar_clip_cigar_start(rec: &[u8], amount: u64, out: &mut [u32]) -> ToldTwo
    ensures { Settled (across two_of tell_clipped (record_start rec.now amount out.old)) result out.new }
{
    border_reads::told_clipped(clip::clip_cigar_start(rec, amount, out))
}

#[unsafe(no_mangle)]
pub extern "C" fn cigar_clip_cigar_end(rec: &[u8], amount: u64, out: &mut [u32]) -> ToldCount
    ensures { Settled (across count_of tell_count (record_end rec.now amount out.old)) result out.new }
{
    clip::clip_cigar_end(rec, amount, out).into()
}
