// Document 01, module 7: the walk over a record's ops to its end, and the sums of its unclipped ends.
#![tactic(auto)]

ghost use Rattle.std.specs.Prelude.{◌≡◌, ℕ, ◌+◌, ◌≤◌, ◌<◌, List, ◌∷◌, pos};
ghost use Rattle.lists.specs.Lists.{sum_of};
ghost use Rattle.sam.specs.Op.{ref_len};
ghost use Rattle.clip_run_rules.specs.Clips.{clips_after_reference};
ghost use Rattle.ends_rules.specs.Sums.{◌⊕◌, ◌⊖◌, summed};
ghost use Rattle.ends_rules.specs.Ends.{provided};
ghost use Rattle.ends_rules.specs.Tails.{greatest_run};
ghost use Rattle.ends_rules.specs.InnerTails.{met};

use ends_rules::Tail;
use oplist::OpList;

// One op more: whatever ops are left, the walk comes to the same.
fn meet(w: Tail, op: u32) -> Tail
    requires { (w.refs < 1152921504606846976) × (w.most < 1152921504606846976) × (w.clips ≤ w.most) }
    ensures by_index { (xs : List ℕ) → met result xs ≡ met w (op ∷ xs) }
    ensures refs_bound { (result.refs ≤ w.refs + 268435456) × (result.most ≤ w.most + 268435456) × (result.clips ≤ result.most) }
{
    if ops::consumes_ref(op) {
        return Tail {
            refs: w.refs + ops::length_of(op),
            clips: 0,
            most: w.most,
            saw: true,
        };
    }
    if !ops::is_clip(op) {
        return w;
    }
    if !w.saw {
        return w;
    }
    let clips = w.clips + ops::length_of(op);
    if w.most < clips {
        return Tail {
            refs: w.refs,
            clips,
            most: clips,
            saw: true,
        };
    }
    Tail {
        refs: w.refs,
        clips,
        most: w.most,
        saw: true,
    }
}

// The walk to the end.
pub fn tail_of<L: OpList>(list: L) -> Tail
    ensures { (result.refs ≡ sum_of ref_len (L.ops list)) × (result.clips ≡ clips_after_reference (L.ops list)) × (result.most ≡ greatest_run (L.ops list)) × (result.clips ≤ result.most) }
{
    let mut w = Tail {
        refs: 0,
        clips: 0,
        most: 0,
        saw: false,
    };
    for i in 0..list.count() {
        w = meet(w, list.op(i));
    }
    w
}

// Lengths that come to n.
fn whole(n: u64) -> Option<i32>
    ensures { result ≡ summed n }
{
    i32::try_from(n).ok()
}

// Where an alignment at `at` that begins with so many clipped bases would begin; counted as `at` is.
pub fn start_from(at: i32, clips: u64) -> Option<i32>
    ensures { result ≡ Some at ⊖ summed clips }
{
    signed::checked_sub(at, whole(clips)?)
}

// The clips after the last reference op, where the Rust's sum of clips gets so far.
fn trailing(clips: u64, most: u64) -> Option<i32>
    requires { clips ≤ most }
    ensures { result ≡ provided (summed most) (Some (pos clips)) }
{
    if 2147483647 < most {
        return None;
    }
    Some(clips as i32)
}

// Where an alignment at `at` would end with its clips, from what the walk to its end has met; counted as `at` is.
pub fn end_from(at: i32, w: Tail) -> Option<i32>
    requires { w.clips ≤ w.most }
    ensures { result ≡ Some at ⊕ summed w.refs ⊕ provided (summed w.most) (Some (pos w.clips)) ⊖ Some (pos 1) }
{
    let end = signed::checked_add(at, whole(w.refs)?)?;
    let clipped = signed::checked_add(end, trailing(w.clips, w.most)?)?;
    signed::checked_sub(clipped, 1)
}
