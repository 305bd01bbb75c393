// Document 02, item 5, the walk over the ops: what an op more does to it, and the measuring pass. An inner crate of `bed`.
#![tactic(auto)]

ghost use Rattle.std.specs.Prelude.{◌≡◌, ◌+◌, ◌≤◌, ◌<◌, length};
ghost use Rattle.std.specs.Option.{IfSome};
ghost use Rattle.bed_rules.specs.Blocks.{is_skip};
ghost use Rattle.bed_rules.specs.InnerWalk.{measured};
ghost use Rattle.bed_walk.specs.InnerWalked.{Passes, is_early};

use bed_rules::Measured;

// What a walk has passed: n blocks, and the stretch that is open, by its start, counted from the alignment's, and its size so far.
#[derive(Clone, Copy)]
pub struct Walk {
    pub n: usize,
    pub start: u64,
    pub size: u64,
}

// N
fn is_skip(op: u32) -> bool
    ensures { result ≡ is_skip op }
{
    op % 16 == 3
}

// An op more: an N ends the stretch, which makes a block unless its size is 0, and any other op belongs to it.
pub fn pass(walk: Walk, op: u32) -> Walk
    requires { (walk.n ≤ 4294967295) × (walk.start + walk.size ≤ 1152921504606846976) }
    ensures { (Passes walk op result) × (result.n ≤ walk.n + 1) × (result.start + result.size < walk.start + walk.size + 268435456) }
{
    if !is_skip(op) {
        return Walk {
            n: walk.n,
            start: walk.start,
            size: walk.size + ops::ref_len(op),
        };
    }
    let start = walk.start + walk.size + ops::ref_len(op);
    if 0 < walk.size {
        return Walk {
            n: walk.n + 1,
            start,
            size: 0,
        };
    }
    Walk {
        n: walk.n,
        start,
        size: 0,
    }
}

// Whether the op is an N before the first block.
fn is_early(walk: Walk, op: u32) -> bool
    ensures { result ≡ is_early walk op }
{
    is_skip(op) && walk.n == 0 && walk.size == 0
}

// The measuring pass.
pub fn measure(ops: &[u32]) -> Option<Measured>
    requires { length ops.now ≤ 65535 }
    ensures value { result ≡ measured ops.now }
    ensures bounds { IfSome result (λ got. (got.blocks ≤ 65536) × (got.refs ≤ 17592186044416)) }
{
    let mut walk = Walk {
        n: 0,
        start: 0,
        size: 0,
    };
    for op in ops {
        if is_early(walk, *op) {
            return None;
        }
        walk = pass(walk, *op);
    }
    if walk.size == 0 {
        return None;
    }
    Some(Measured {
        blocks: walk.n + 1,
        refs: walk.start + walk.size,
    })
}
