// A record's true op list.
ghost use Rattle.std.specs.Prelude.{◌≡◌};
ghost use Rattle.answers.specs.Settled.{Settled};
ghost use Rattle.answers.specs.Answers.{tell_count};
ghost use Rattle.length_rules.specs.Lengths.{tell_lengths};
ghost use Rattle.tag_rules.specs.Long.{true_list, tell_true_list};
ghost use Rattle.true_rules.specs.True.{true_ops, true_printed, true_lengths, true_unclipped, true_start, true_end};
ghost use Rattle.ends_rules.specs.Ends.{tell_unclipped};
ghost use Rattle.clip_rules.specs.Answer.{tell_clipped};
ghost use Rattle.border.specs.Border.{count_of, position_of, two_of, lengths_of, across};

use answers::Answer;
use border::{ToldCount, ToldLengths, ToldPosition, ToldTwo};
use oplist::Area;

// No `From`: both types are other crates'.
fn told_true_list(answer: Answer<Area>) -> ToldTwo
    ensures { result ≡ two_of (tell_true_list answer) }
{
    answer
        .map(|area| (area.at as u64, 4 * u64::from(area.n)))
        .into()
}

#[unsafe(no_mangle)]
pub extern "C" fn cigar_true_cigar_raw_bytes(rec: &[u8]) -> ToldTwo
    ensures { result ≡ two_of (tell_true_list (true_list rec.now)) }
{
    told_true_list(tags::true_list(rec))
}

#[unsafe(no_mangle)]
pub extern "C" fn cigar_true_cigar_ops(rec: &[u8], out: &mut [u32]) -> ToldCount
    ensures { Settled (across count_of tell_count (true_ops rec.now out.old)) result out.new }
{
    true_cigar::true_cigar_ops(rec, out).into()
}

#[unsafe(no_mangle)]
pub extern "C" fn cigar_true_cigar_lengths(rec: &[u8]) -> ToldLengths
    ensures { result ≡ lengths_of (tell_lengths (true_lengths rec.now)) }
{
    border_lengths::told_lengths(true_cigar::true_cigar_lengths(rec))
}

#[unsafe(no_mangle)]
pub extern "C" fn cigar_true_cigar_to_bytes_into(rec: &[u8], out: &mut [u8]) -> ToldCount
    ensures { Settled (across count_of tell_count (true_printed rec.now out.old)) result out.new }
{
    true_cigar::true_cigar_to_bytes_into(rec, out).into()
}

#[unsafe(no_mangle)]
pub extern "C" fn cigar_true_unclipped_5prime_from_raw_bam(rec: &[u8]) -> ToldPosition
    ensures { result ≡ position_of (tell_unclipped (true_unclipped rec.now)) }
{
    border_reads::told_unclipped(true_ends::true_unclipped_5prime_from_raw_bam(rec))
}

#[unsafe(no_mangle)]
pub extern "C" fn cigar_true_clip_cigar_start(rec: &[u8], amount: u64, out: &mut [u32]) -> ToldTwo
    ensures { Settled (across two_of tell_clipped (true_start rec.now amount out.old)) result out.new }
{
    border_reads::told_clipped(true_ends::true_clip_cigar_start(rec, amount, out))
}

#[unsafe(no_mangle)]
pub extern "C" fn cigar_true_clip_cigar_end(rec: &[u8], amount: u64, out: &mut [u32]) -> ToldCount
    ensures { Settled (across count_of tell_count (true_end rec.now amount out.old)) result out.new }
{
    true_ends::true_clip_cigar_end(rec, amount, out).into()
}
