// The runs of clips that an op list begins with, from its start; a list seen from its end has those of the end. An inner crate: the unclipped ends, clipping and the overhang stand on its one walk.
#![tactic(auto)]

ghost use Rattle.std.specs.Prelude.{◌≡◌, ◌≤◌, ◌<◌, length};
ghost use Rattle.sam.specs.Op.{code_of};
ghost use Rattle.ops.specs.Ops.{is_clip};
ghost use Rattle.clip_run_rules.specs.Clips.{len_if, leading_clips, leading_soft};
ghost use Rattle.clip_run_rules.specs.InnerWalked.{in_mask, RunIs, OuterIs};

use oplist::OpList;

// The codes of clips, as masks: bit c is code c's.
const SOFT: u32 = 16;

const HARD: u32 = 32;

// A run of clips: its soft and hard bases, and the place after it.
#[derive(Clone, Copy)]
pub struct Run {
    pub soft: u64,
    pub hard: u64,
    pub next: usize,
}

// Whether an op's code is in a mask.
fn in_mask(mask: u32, op: u32) -> bool
    ensures { result ≡ in_mask mask (code_of op) }
{
    (mask >> (op % 16)) % 2 == 1
}

// The bases of an op that has this code.
fn length_if(op: u32, code: u32) -> u64
    ensures { (result ≡ len_if code op) × (result < 268435456) }
{
    if op % 16 == code {
        return ops::length_of(op);
    }
    0
}

// The run of ops with codes in a mask, from place `from` on.
fn run_at<L: OpList>(list: L, from: usize, mask: u32) -> Run
    requires { from ≤ length (L.ops list) }
    ensures { RunIs (L.ops list) from (in_mask mask) result.soft result.hard result.next }
{
    let mut soft: u64 = 0;
    let mut hard: u64 = 0;
    for next in from..list.count() {
        let op = list.op(next);
        if !in_mask(mask, op) {
            return Run { soft, hard, next };
        }
        soft += length_if(op, 4);
        hard += length_if(op, 5);
    }
    Run {
        soft,
        hard,
        next: list.count(),
    }
}

// The run of S and H (any order) that the list begins with. S, the usual clip, is the way straight through the loop.
pub fn clip_run<L: OpList>(list: L) -> Run
    ensures { RunIs (L.ops list) 0 is_clip result.soft result.hard result.next }
{
    let mut soft: u64 = 0;
    let mut hard: u64 = 0;
    for next in 0..list.count() {
        let op = list.op(next);
        if op % 16 == 5 {
            hard += ops::length_of(op);
            continue;
        }
        if op % 16 != 4 {
            return Run { soft, hard, next };
        }
        soft += ops::length_of(op);
    }
    Run {
        soft,
        hard,
        next: list.count(),
    }
}

// E: its bases.
pub fn leading_clips<L: OpList>(list: L) -> u64
    ensures { result ≡ leading_clips (L.ops list) }
{
    let e = clip_run(list);
    e.soft + e.hard
}

// The soft clipped bases among them.
pub fn leading_soft<L: OpList>(list: L) -> u64
    ensures { result ≡ leading_soft (L.ops list) }
{
    clip_run(list).soft
}

// h and s: the outermost H run, the S run next inside, and the place after both.
pub fn outer_runs<L: OpList>(list: L) -> Run
    ensures { OuterIs (L.ops list) result.hard result.soft result.next }
{
    let h = run_at(list, 0, HARD);
    let s = run_at(list, h.next, SOFT);
    Run {
        soft: s.soft,
        hard: h.hard,
        next: s.next,
    }
}
