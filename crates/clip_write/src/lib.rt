// Document 01, module 9, a clip of an op list: planned, and written to the output as its plan says, by one function for each end. An inner crate of clipping.
#![tactic(auto)]

ghost use Rattle.std.specs.Prelude.{◌≡◌, [], ◌∷◌, ◌++◌, reverse, ◌+◌, ◌-◌, ◌≤◌, length, take, drop};
ghost use Rattle.lists.specs.Lists.{splice};
ghost use Rattle.answers.specs.Settled.{Settled};
ghost use Rattle.clip_rules.specs.Answer.{clipped_up_to};

use answers::{Answer, Refusal};
use clip_rules::{Clipped, Plan};
use oplist::OpList;

// Stores the first `heads` of a and b from place `at` on.
fn put(out: &mut [u32], at: usize, heads: usize, a: u32, b: u32)
    requires heads_bound { heads ≤ 2 }
    requires heads_in_bounds { at + heads ≤ length out.old }
    ensures { out.new ≡ splice out.old at (take heads (a ∷ (b ∷ []))) }
{
    if heads == 0 {
        return;
    }
    out[at] = a;
    if heads == 1 {
        return;
    }
    out[at + 1] = b;
}

// A clip at the start: the ops put in place, then the ops from place `skip` on.
fn write_start<L: OpList>(list: L, p: Plan, out: &mut [u32])
    requires heads_bound { p.heads ≤ 2 }
    requires skip_in_bounds { p.skip ≤ length (L.ops list) }
    requires skip_in_bounds_2 { p.heads + (length (L.ops list) - p.skip) ≤ length out.old }
    ensures { out.new ≡ splice out.old 0 (take p.heads (p.first ∷ (p.second ∷ [])) ++ drop p.skip (L.ops list)) }
{
    let n = list.count() - p.skip;
    put(out, 0, p.heads, p.first, p.second);
    oplist::copy(list, p.skip, n, out, p.heads);
}

// A clip at the end: the ops but for the last `skip`, then the ops put in place, the first of them last.
fn write_end<L: OpList>(list: L, p: Plan, out: &mut [u32])
    requires heads_bound { p.heads ≤ 2 }
    requires skip_in_bounds { p.skip ≤ length (L.ops list) }
    requires skip_in_bounds_2 { p.heads + (length (L.ops list) - p.skip) ≤ length out.old }
    ensures { out.new ≡ splice out.old 0 (reverse (take p.heads (p.first ∷ (p.second ∷ [])) ++ drop p.skip (reverse (L.ops list)))) }
{
    let n = list.count() - p.skip;
    oplist::copy(list, 0, n, out, 0);
    if p.heads == 2 {
        put(out, n, p.heads, p.second, p.first);
    } else {
        put(out, n, p.heads, p.first, p.second);
    }
}

// Both ends, in one function that all else is inlined into: between two of them, lists and plan would go through memory, which takes as long as a short list.
pub fn clip_ops<L: OpList>(
    list: L,
    limit: usize,
    amount: u64,
    start: bool,
    out: &mut [u32],
) -> Answer<Clipped>
    ensures { Settled (clipped_up_to limit (L.ops list) amount start out.old) result out.new }
{
    let p = clip_plan::plan_clip(list, limit, amount, start, false)?;
    let n = p.heads + (list.count() - p.skip);
    if out.len() < n {
        return Err(Refusal::NoRoom);
    }
    if start {
        write_start(list, p, out);
        return Ok(Clipped {
            written: n as u64,
            lost: p.lost,
        });
    }
    write_end(list, p, out);
    Ok(Clipped {
        written: n as u64,
        lost: p.lost,
    })
}
