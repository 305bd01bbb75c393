// The static library, fourth part: clipped records and the receiving check, as include/cigar.h declares them.
#![tactic(auto)]

ghost use Rattle.std.specs.Prelude.{◌≡◌};
ghost use Rattle.answers.specs.Answers.{tell_count};
ghost use Rattle.answers.specs.Settled.{Settled};
ghost use Rattle.clip_rules.specs.Answer.{tell_clipped};
ghost use Rattle.record_rules.specs.Clipping.{clipped_record_start, clipped_record_end};
ghost use Rattle.receive_rules.specs.Receiving.{checked_start, checked_end, tell_received};
ghost use Rattle.border.specs.Border.{count_of, two_of, across};

use border::{ToldCount, ToldTwo};

#[unsafe(no_mangle)]
pub extern "C" fn cigar_clip_record_start(rec: &[u8], amount: u64, out: &mut [u8]) -> ToldTwo
    ensures { Settled (across two_of tell_clipped (clipped_record_start rec.now amount out.old)) result out.new }
{
    border_reads::told_clipped(record_write::clip_record_start(rec, amount, out))
}

#[unsafe(no_mangle)]
pub extern "C" fn cigar_clip_record_end(rec: &[u8], amount: u64, out: &mut [u8]) -> ToldCount
    ensures { Settled (across count_of tell_count (clipped_record_end rec.now amount out.old)) result out.new }
{
    record_write::clip_record_end(rec, amount, out).into()
}

#[unsafe(no_mangle)]
pub extern "C" fn cigar_check_clipped_start(rec: &[u8], amount: u64, received: &[u8]) -> ToldCount
    ensures { result ≡ count_of (tell_received (checked_start rec.now amount received.now)) }
{
    border_records::told_received(receive::check_clipped_start(rec, amount, received))
}

#[unsafe(no_mangle)]
pub extern "C" fn cigar_check_clipped_end(rec: &[u8], amount: u64, received: &[u8]) -> ToldCount
    ensures { result ≡ count_of (tell_received (checked_end rec.now amount received.now)) }
{
    border_records::told_received(receive::check_clipped_end(rec, amount, received))
}
