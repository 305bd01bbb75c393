// Document 01, module 9, taking read bases from an op list: where it ends, and what is left of the op at which it does. An inner crate of clipping.
#![tactic(auto)]

ghost use Rattle.std.specs.Prelude.{◌≡◌, false, List, ◌∷◌, ℕ, ◌+◌, ◌<◌, ◌≤◌, ◌^◌, length, drop};
ghost use Rattle.sam.specs.Op.{op_of};
ghost use Rattle.clip_rules.specs.Clipping.{goes, more, ends};
ghost use Rattle.clip_rules.specs.InnerPlan.{TakingIs, taken_of};

use oplist::OpList;

// Read bases taken: `next` is the place of the first op that is left whole, and where `cut` is 1,
// `rest` is what is left of the op before it.
#[derive(Clone, Copy)]
pub struct Taking {
    pub next: usize,
    pub bases: u64,
    pub lost: u64,
    pub cut: usize,
    pub rest: u32,
}

// An op from its code and its length.
pub fn encode_op(code: u32, len: u64) -> u32
    requires code_bound { code < 16 }
    requires len_bound { len < 2 ^ 28 }
    ensures { result ≡ op_of len code }
{
    (len as u32) * 16 + code
}

// Whether an op goes whole and the taking goes on, with n bases wanted.
fn goes_on(n: u64, op: u32) -> bool
    ensures { result ≡ goes n op }
{
    if n == 0 {
        op % 16 == 2
    } else {
        ops::read_len(op) <= n
    }
}

// The end of a taking at the op at place i, with n bases wanted.
fn stop(i: usize, n: u64, op: u32, bases: u64, lost: u64) -> Taking
    requires op_value { goes n op ≡ false }
    requires i_bound { i < 2 ^ 32 }
    requires bases_bound { bases < 2 ^ 60 }
    requires lost_bound { lost < 2 ^ 60 }
    ensures by_index { (xs : List ℕ) → drop i xs ≡ op ∷ drop (i + 1) xs
        → taken_of xs result.next result.bases result.lost result.cut result.rest ≡ more bases lost (ends n op (drop (i + 1) xs)) }
    ensures next_bound { (result.next ≤ i + 1) × (result.cut ≤ 1) }
{
    if n == 0 {
        return Taking {
            next: i,
            bases,
            lost,
            cut: 0,
            rest: 0,
        };
    }
    let code = op % 16;
    let len = ops::length_of(op);
    if code == 1 {
        return Taking {
            next: i + 1,
            bases: bases + len,
            lost,
            cut: 0,
            rest: 0,
        };
    }
    Taking {
        next: i + 1,
        bases: bases + n,
        lost: lost + n,
        cut: 1,
        rest: encode_op(code, len - n),
    }
}

// Takes n read bases from place `from` on.
pub fn take_bases<L: OpList>(list: L, from: usize, n: u64) -> Taking
    requires { from ≤ length (L.ops list) }
    ensures { TakingIs (L.ops list) from n result.next result.bases result.lost result.cut result.rest }
{
    let mut left = n;
    let mut bases: u64 = 0;
    let mut lost: u64 = 0;
    for i in from..list.count() {
        let op = list.op(i);
        if !goes_on(left, op) {
            return stop(i, left, op, bases, lost);
        }
        let k = ops::read_len(op);
        left -= k;
        bases += k;
        lost += ops::ref_len(op);
    }
    Taking {
        next: list.count(),
        bases,
        lost,
        cut: 0,
        rest: 0,
    }
}
