// Document 02, item 8, planning: what a plan of ops leaves of a record, its number of ops and its bases, and the count. An inner crate.
#![tactic(auto)]

ghost use Rattle.std.specs.Prelude.{◌≡◌, cond, [], ◌∷◌, ◌+◌, ◌-◌, ◌≤◌, ◌<◌, length, take};
ghost use Rattle.lists.specs.Lists.{sum_of};
ghost use Rattle.sam.specs.Op.{query_len};
ghost use Rattle.sam.specs.Record.{seq_len_of, op_count_of, tags_start};
ghost use Rattle.oplist.specs.Ops.{record_ops};
ghost use Rattle.record_rules.specs.Clipping.{new_len, first_kept};
ghost use Rattle.record_rules.specs.InnerPlan.{planned_ops};

use clip_rules::Plan;
use oplist::{Facing, OpList};

// How many ops a plan leaves of a record's.
pub fn count_of(bam: &[u8], p: Plan) -> u32
    requires in_bounds { 32 ≤ length bam.now }
    requires heads_bound { p.heads ≤ 2 }
    requires skip_bound { p.skip ≤ op_count_of bam.now }
    ensures { result ≡ p.heads + (op_count_of bam.now - p.skip) }
{
    (p.heads + (little_endian::u16_at(bam, 12) as usize - p.skip)) as u32
}

// The query bases of the first n ops of a list.
fn first_query<L: OpList>(list: L, n: usize) -> u64
    requires { n ≤ length (L.ops list) }
    ensures { (result ≡ sum_of query_len (take n (L.ops list))) × (result ≤ 1152921504606846976) }
{
    let mut query: u64 = 0;
    for i in 0..n {
        query += ops::query_len(list.op(i));
    }
    query
}

// The query bases of the first `heads` of two ops.
fn heads_query(heads: usize, a: u32, b: u32) -> u64
    requires { heads ≤ 2 }
    ensures { (result ≡ sum_of query_len (take heads (a ∷ (b ∷ [])))) × (result < 536870912) }
{
    if heads == 0 {
        return 0;
    }
    if heads == 1 {
        return ops::query_len(a);
    }
    ops::query_len(a) + ops::query_len(b)
}

// The l_seq that a plan leaves. Only the ops that it takes are walked.
pub fn new_len(bam: &[u8], p: Plan, start: bool) -> u32
    requires bam_in_bounds { tags_start bam.now ≤ length bam.now }
    requires heads_bound { p.heads ≤ 2 }
    requires skip_bound { p.skip ≤ op_count_of bam.now }
    ensures { (result ≡ new_len bam.now (planned_ops start (record_ops bam.now) p)) × (result ≤ seq_len_of bam.now) }
{
    let gone = first_query(Facing::new(oplist::of_record(bam), start), p.skip);
    let put = heads_query(p.heads, p.first, p.second);
    let len = little_endian::u32_at(bam, 16) as u64;
    len.saturating_sub(gone.saturating_sub(put)) as u32
}

// The first base that stays: the lost ones are at the chosen end.
pub fn first_kept(bam: &[u8], start: bool, len: u32) -> u32
    requires in_bounds { 32 ≤ length bam.now }
    requires len_bound { len ≤ seq_len_of bam.now }
    ensures { (result ≡ first_kept bam.now start len) × (result + len ≤ seq_len_of bam.now) }
{
    if start {
        return little_endian::u32_at(bam, 16) - len;
    }
    0
}

// The count: the reference length taken at the start.
pub fn start_count(start: bool, lost: u64) -> u64
    ensures { (result ≡ cond start lost 0) × (result ≤ lost) }
{
    if start { lost } else { 0 }
}
