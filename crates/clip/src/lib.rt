// Document 01, module 9: clipping an op list at one end, lent as numbers or in a record. `clip_plan` says what a clip does, and nothing is written before its plan is made.
#![tactic(auto)]

ghost use Rattle.std.specs.Prelude.{◌≡◌, true, false, ◌≤◌};
ghost use Rattle.answers.specs.Settled.{Settled};
ghost use Rattle.clip_rules.specs.Answer.{clipped_up_to, uncounted, without_count, start_up_to, end_up_to, clipped_start, clipped_end, long_start, long_end, record_start, record_end};

use answers::{Answer, Refusal};
use clip_rules::Clipped;
use oplist::{Lent, OpList};

// Clips `amount` bases at the start of a lent list: the ops written, and the reference length taken. Refusals 3, 8, 19, 6.
pub fn clip_cigar_start_raw(ops: &[u32], amount: u64, out: &mut [u32]) -> Answer<Clipped>
    ensures { Settled (clipped_start ops.now amount out.old) result out.new }
{
    start_up_to(oplist::MOST_OPS, ops, amount, out)
}

// The same at the end: the ops written. Refusals 3, 8, 19, 6.
pub fn clip_cigar_end_raw(ops: &[u32], amount: u64, out: &mut [u32]) -> Answer<u64>
    ensures { Settled (clipped_end ops.now amount out.old) result out.new }
{
    end_up_to(oplist::MOST_OPS, ops, amount, out)
}

// And of a long list: at the start,
pub fn long_clip_cigar_start_raw(ops: &[u32], amount: u64, out: &mut [u32]) -> Answer<Clipped>
    ensures { Settled (long_start ops.now amount out.old) result out.new }
{
    start_up_to(oplist::MOST_LONG_OPS, ops, amount, out)
}

// and at the end. Refusals 3, 8, 19, 6.
pub fn long_clip_cigar_end_raw(ops: &[u32], amount: u64, out: &mut [u32]) -> Answer<u64>
    ensures { Settled (long_end ops.now amount out.old) result out.new }
{
    end_up_to(oplist::MOST_LONG_OPS, ops, amount, out)
}

// A clip at the start of a lent list of at most `limit` ops.
fn start_up_to(limit: usize, ops: &[u32], amount: u64, out: &mut [u32]) -> Answer<Clipped>
    requires { limit ≤ 4294967295 }
    ensures { Settled (start_up_to limit ops.now amount out.old) result out.new }
{
    let Some(list) = Lent::new(ops, limit) else {
        return Err(Refusal::TooManyOps);
    };
    clip_start(list, limit, amount, out)
}

// The same at the end.
fn end_up_to(limit: usize, ops: &[u32], amount: u64, out: &mut [u32]) -> Answer<u64>
    requires { limit ≤ 4294967295 }
    ensures { Settled (end_up_to limit ops.now amount out.old) result out.new }
{
    let Some(list) = Lent::new(ops, limit) else {
        return Err(Refusal::TooManyOps);
    };
    clip_end(list, limit, amount, out)
}

// Clips `amount` bases at the start of a record's ops, whose number is no matter. Refusals 1, 8, 19, 6.
pub fn clip_cigar_start(bam: &[u8], amount: u64, out: &mut [u32]) -> Answer<Clipped>
    ensures { Settled (record_start bam.now amount out.old) result out.new }
{
    if bam.len() < 32 {
        return Err(Refusal::ShortRecord);
    }
    let list = oplist::of_record(bam);
    clip_start(list, list.count(), amount, out)
}

// The same at the end. Refusals 1, 8, 19, 6.
pub fn clip_cigar_end(bam: &[u8], amount: u64, out: &mut [u32]) -> Answer<u64>
    ensures { Settled (record_end bam.now amount out.old) result out.new }
{
    if bam.len() < 32 {
        return Err(Refusal::ShortRecord);
    }
    let list = oplist::of_record(bam);
    clip_end(list, list.count(), amount, out)
}

// A clip at the start of an op list of at most `limit` ops. Refusals 3, 8, 19, 6.
pub fn clip_start<L: OpList>(list: L, limit: usize, amount: u64, out: &mut [u32]) -> Answer<Clipped>
    ensures { Settled (clipped_up_to limit (L.ops list) amount true out.old) result out.new }
{
    clip_write::clip_ops(list, limit, amount, true, out)
}

// The same at the end, without a count.
pub fn clip_end<L: OpList>(list: L, limit: usize, amount: u64, out: &mut [u32]) -> Answer<u64>
    ensures { Settled (without_count (clipped_up_to limit (L.ops list) amount false out.old)) result out.new }
{
    without_count(clip_write::clip_ops(list, limit, amount, false, out))
}

// An answer without its count.
fn without_count(answer: Answer<Clipped>) -> Answer<u64>
    ensures { result ≡ uncounted answer }
{
    answer.map(|clipped| clipped.written)
}
