// Document 02, item 8, planning: what becomes of a record that is clipped. Nothing is written; whoever writes or compares a clipped record goes by the plan.
#![tactic(auto)]

ghost use Rattle.std.specs.Prelude.{◌≡◌, cond, ◌+◌, ◌≤◌, ◌<◌, pos, ◌+ℤ◌, length};
ghost use Rattle.lists.specs.Lists.{sum_of};
ghost use Rattle.signed.specs.Whole.{checked};
ghost use Rattle.sam.specs.Op.{len_of, ref_len};
ghost use Rattle.sam.specs.Record.{pos_of, op_count_of, tags_start};
ghost use Rattle.oplist.specs.Ops.{record_ops};
ghost use Rattle.record_rules.specs.Clipping.{differs, bin_at, binned, placed, counted, clipped_fate};
ghost use Rattle.record_rules.specs.InnerPlan.{FateIs, planned_ops};

use answers::{Answer, Pos0, Refusal};
use clip_rules::Plan;
use oplist::OpList;
use record_rules::RecordPlan;

// The most ops that a record counts.
pub const MOST_RECORD_OPS: u32 = 65535;

// What becomes of a record that is clipped at one end. Refusals 1, 2, 8, 19, 15, 16, 4.
pub fn plan_record(bam: &[u8], amount: u64, start: bool) -> Answer<RecordPlan>
    ensures { FateIs bam.now start (clipped_fate bam.now amount start) result }
{
    if bam.len() < 32 {
        return Err(Refusal::ShortRecord);
    }
    if bam.len() < record_parts::tags_start(bam) {
        return Err(Refusal::AreaOverrun);
    }
    let list = oplist::of_record(bam);
    let p = clip_plan::plan_clip(list, list.count(), amount, start, true)?;
    counted(bam, p, start)
}

// Whether a query length differs from an l_seq that is not 0.
fn query_differs(len: u64, query: u64) -> bool
    ensures { result ≡ differs len query }
{
    len != 0 && query != len
}

// The bin of a record at z with so many reference bases. Refusal 4.
fn bin_at(z: i32, refs: u64) -> Answer<u32>
    requires { refs < 268435456 }
    ensures { result ≡ bin_at z refs }
{
    if z < 0 {
        return Ok(bin::UNMAPPED_BIN);
    }
    bin::bin_from(Pos0(z), refs as i32)
}

// A record whose position is moved to z. Refusal 4, of the bin.
fn binned(bam: &[u8], p: Plan, start: bool, refs: u64, count: u64, z: i32) -> Answer<RecordPlan>
    requires bam_in_bounds { tags_start bam.now ≤ length bam.now }
    requires heads_bound { p.heads ≤ 2 }
    requires skip_bound { p.skip ≤ op_count_of bam.now }
    requires refs_bound { refs < 268435456 }
    ensures { FateIs bam.now start (binned bam.now (planned_ops start (record_ops bam.now) p) start count z (bin_at z refs)) result }
{
    let bin = bin_at(z, refs)?;
    let n = record_left::count_of(bam, p);
    let len = record_left::new_len(bam, p, start);
    let from = record_left::first_kept(bam, start, len);
    Ok(RecordPlan {
        ops: p,
        n,
        place: z,
        bin,
        len,
        from,
        count,
    })
}

// A record that is moved by the count. Refusal 4, of the position and of the bin.
fn placed(bam: &[u8], p: Plan, start: bool, refs: u64, count: u64) -> Answer<RecordPlan>
    requires bam_in_bounds { tags_start bam.now ≤ length bam.now }
    requires heads_bound { p.heads ≤ 2 }
    requires skip_bound { p.skip ≤ op_count_of bam.now }
    requires refs_bound { (refs < 268435456) × (count < 268435456) }
    requires refs_value { refs ≡ sum_of ref_len (planned_ops start (record_ops bam.now) p) }
    ensures { FateIs bam.now start (placed bam.now (planned_ops start (record_ops bam.now) p) start count (checked (pos_of bam.now +ℤ pos count))) result }
{
    let place = little_endian::i32_at(bam, 4);
    let z = signed::checked_add(place, count as i32).ok_or(Refusal::Overflow)?;
    binned(bam, p, start, refs, count, z)
}

// A record whose ops a plan clips. Refusals 15, 16, 4.
fn counted(bam: &[u8], p: Plan, start: bool) -> Answer<RecordPlan>
    requires bam_in_bounds { tags_start bam.now ≤ length bam.now }
    requires heads_bound { p.heads ≤ 2 }
    requires skip_bound { p.skip ≤ op_count_of bam.now }
    requires bam_bound { sum_of len_of (record_ops bam.now) < 268435456 }
    requires bam_value { sum_of ref_len (record_ops bam.now) ≡ p.lost + sum_of ref_len (planned_ops start (record_ops bam.now) p) }
    ensures { FateIs bam.now start (counted bam.now (planned_ops start (record_ops bam.now) p) start (cond start p.lost 0)) result }
{
    let total = op_sums::short_sums(oplist::of_record(bam));
    let len = little_endian::u32_at(bam, 16) as u64;
    if query_differs(len, total.query) {
        return Err(Refusal::QueryDiffers);
    }
    if MOST_RECORD_OPS < record_left::count_of(bam, p) {
        return Err(Refusal::CountOver);
    }
    placed(
        bam,
        p,
        start,
        total.refs - p.lost,
        record_left::start_count(start, p.lost),
    )
}
