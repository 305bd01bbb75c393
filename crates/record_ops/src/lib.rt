// The ops of a clipped record, stored: those put in place by their numbers, in the order of the end, the others as bytes. An inner crate.
// Buffers come with a place in them: it is a sum of a record's parts, and for slices each caller would cut at two such sums.
#![tactic(auto)]

ghost use Rattle.std.specs.Prelude.{◌≡◌, [], ◌∷◌, ◌+◌, ◌-◌, ◌*◌, ◌≤◌, length, take};
ghost use Rattle.lists.specs.Lists.{splice};
ghost use Rattle.sam.specs.Record.{ops_in, op_bytes};
ghost use Rattle.record_rules.specs.InnerPlan.{planned_ops};

use clip_rules::Plan;

// Stores the first `heads` of two ops.
fn put_heads(out: &mut [u8], at: usize, heads: usize, a: u32, b: u32)
    requires heads_bound { heads ≤ 2 }
    requires heads_in_bounds { at + 4 * heads ≤ length out.old }
    ensures { out.new ≡ splice out.old at (op_bytes (take heads (a ∷ (b ∷ [])))) }
{
    if heads == 0 {
        return;
    }
    record_parts::put_u32(a, out, at);
    if heads == 1 {
        return;
    }
    record_parts::put_u32(b, out, at + 4);
}

// The ops that a plan leaves, of n ops from place `area` on. At the start those put in place stand first; at the end they stand last, the first of them behind the other.
pub fn put_ops(rec: &[u8], area: usize, n: usize, p: Plan, start: bool, out: &mut [u8], at: usize)
    requires heads_bound { p.heads ≤ 2 }
    requires skip_le_n { p.skip ≤ n }
    requires n_in_bounds { area + 4 * n ≤ length rec.now }
    requires skip_in_bounds { at + 4 * (p.heads + (n - p.skip)) ≤ length out.old }
    ensures { out.new ≡ splice out.old at (op_bytes (planned_ops start (ops_in rec.now area n) p)) }
{
    let kept = 4 * (n - p.skip);
    if start {
        let behind = at + 4 * p.heads;
        let first = area + 4 * p.skip;
        put_heads(out, at, p.heads, p.first, p.second);
        record_parts::copy_bytes(&rec[first..first + kept], &mut out[behind..behind + kept]);
        return;
    }
    let behind = at + kept;
    record_parts::copy_bytes(&rec[area..area + kept], &mut out[at..behind]);
    if p.heads == 2 {
        put_heads(out, behind, p.heads, p.second, p.first);
    } else {
        put_heads(out, behind, p.heads, p.first, p.second);
    }
}
