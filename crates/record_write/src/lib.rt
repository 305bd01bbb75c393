// Document 02, item 8: the clipped record, written whole. `record_plan` says what becomes of a record, and nothing is written before its plan is made.
#![tactic(auto)]

ghost use Rattle.std.specs.Prelude.{◌≡◌, Bool, true, false, ◌≤◌, length};
ghost use Rattle.answers.specs.Settled.{Settled};
ghost use Rattle.lists.specs.Lists.{splice};
ghost use Rattle.record_rules.specs.Written.{new_record};
ghost use Rattle.clip_rules.specs.Answer.{without_count};
ghost use Rattle.record_rules.specs.Clipping.{put_into, clipped_record_start, clipped_record_end};
ghost use Rattle.record_rules.specs.InnerPlan.{change_by, Fits};

use answers::{Answer, Refusal};
use clip_rules::Clipped;
use record_rules::RecordPlan;

// Writes the record clipped by `amount` bases at its start to the first places of out: the bytes written, and the reference length taken. Refusals 1, 2, 8, 19, 15, 16, 4, 6.
// The record is lent anew to each call, so that its place and its length are handed on in registers: passed on as it stands it is copied, sixteen bytes that were stored as two numbers, for which the machine waits longer than for any of the copies.
pub fn clip_record_start(bam: &[u8], amount: u64, out: &mut [u8]) -> Answer<Clipped>
    ensures { Settled (clipped_record_start bam.now amount out.old) result out.new }
{
    let p = record_plan::plan_record(&*bam, amount, true)?;
    put_start(&*bam, p, out)
}

// The same at the end: the bytes written. Refusals 1, 2, 8, 19, 15, 16, 4, 6.
pub fn clip_record_end(bam: &[u8], amount: u64, out: &mut [u8]) -> Answer<u64>
    ensures { Settled (clipped_record_end bam.now amount out.old) result out.new }
{
    let p = record_plan::plan_record(&*bam, amount, false)?;
    put_end(&*bam, p, out)
}

// How many bytes the record has that a plan is for.
fn size_of(bam: &[u8], p: RecordPlan) -> usize
    requires { Fits bam.now p }
    ensures { (start : Bool) → result ≡ length (new_record bam.now (change_by bam.now start p)) }
{
    let len = p.len as usize;
    let tags = record_parts::tags_start(bam);
    let front = 32 + little_endian::u8_at(bam, 8) as usize;
    front + (4 * (p.n as usize) + ((len + 1) / 2 + (len + (bam.len() - tags))))
}

// The record that a plan is for.
fn write_record(rec: &[u8], p: RecordPlan, start: bool, out: &mut [u8])
    requires fits { Fits rec.now p }
    requires p_in_bounds { length (new_record rec.now (change_by rec.now start p)) ≤ length out.old }
    ensures { out.new ≡ splice out.old 0 (new_record rec.now (change_by rec.now start p)) }
{
    let area = 32 + little_endian::u8_at(rec, 8) as usize;
    let n = little_endian::u16_at(rec, 12) as usize;
    let ops = p.ops;
    record_bytes::put_front(rec, p, out);
    record_ops::put_ops(rec, area, n, ops, start, out, area);
    record_bytes::put_tail(
        rec,
        p.from as usize,
        p.len as usize,
        out,
        area + 4 * (p.n as usize),
    );
}

// Writes the record that a plan at the start is for, where there is room. Refusal 6. Each end has its own answer, which so needs no memory.
fn put_start(bam: &[u8], p: RecordPlan, out: &mut [u8]) -> Answer<Clipped>
    requires { Fits bam.now p }
    ensures { Settled (put_into (new_record bam.now (change_by bam.now true p)) p.count out.old) result out.new }
{
    let size = size_of(bam, p);
    if out.len() < size {
        return Err(Refusal::NoRoom);
    }
    write_record(bam, p, true, out);
    Ok(Clipped {
        written: size as u64,
        lost: p.count,
    })
}

// The same at the end.
fn put_end(bam: &[u8], p: RecordPlan, out: &mut [u8]) -> Answer<u64>
    requires { Fits bam.now p }
    ensures { Settled (without_count (put_into (new_record bam.now (change_by bam.now false p)) p.count out.old)) result out.new }
{
    let bytes = size_of(bam, p);
    if out.len() < bytes {
        return Err(Refusal::NoRoom);
    }
    write_record(bam, p, false, out);
    Ok(bytes as u64)
}
