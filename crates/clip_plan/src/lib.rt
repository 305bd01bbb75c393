// Document 01, module 9, planning: what a clip takes away and what it puts in its place. Nothing is written; whoever writes or compares a clipped list goes by the plan.
#![tactic(auto)]

ghost use Rattle.std.specs.Prelude.{◌≡◌, true, List, ℕ, ◌+◌, ◌-◌, ◌*◌, ◌/◌, ◌<◌, ◌≤◌, ◌^◌, ltb, length, drop};
ghost use Rattle.lists.specs.Lists.{sum_of};
ghost use Rattle.sam.specs.Op.{len_of, code_of, op_of};
ghost use Rattle.ops.specs.Ops.{read_len};
ghost use Rattle.clip_rules.specs.Clipping.{upgraded};
ghost use Rattle.clip_rules.specs.InnerPlan.{MadeIs, PlannedIs, cut_of};

use answers::{Answer, Refusal};
use clip_rules::Plan;
use oplist::{Facing, OpList};

// The longest total that clipping takes: 28 bits, as one op holds.
pub const MOST_BASES: u64 = 268435455;

// What a clip does, as seen from the chosen end, to an op list of at most `limit` ops. Refusals 3, 8, 19. Where `quick` is true a clip that ends within the first op is looked for
// at once, since most clips of a read do; where lists begin with any op the processor does not foresee it, and looking costs more than it saves. No answer rests on it.
pub fn plan_clip<L: OpList>(
    list: L,
    limit: usize,
    amount: u64,
    start: bool,
    quick: bool,
) -> Answer<Plan>
    ensures { PlannedIs limit (L.ops list) amount start result }
{
    if limit < list.count() {
        return Err(Refusal::TooManyOps);
    }
    if is_too_long(list) {
        return Err(Refusal::TooLong);
    }
    make_plan(list, amount, start, quick)
}

// Whether the lengths sum to more than clipping takes. The longest length that all ops' bits could make bounds the sum, and costs less to find.
fn is_too_long<L: OpList>(list: L) -> bool
    ensures { result ≡ ltb 268435455 (sum_of len_of (L.ops list)) }
{
    let most = ops::length_of(all_bits(list));
    MOST_BASES < list.count() as u64 * most && MOST_BASES < total(list)
}

// The bits that any op has.
fn all_bits<L: OpList>(list: L) -> u32
    ensures { sum_of len_of (L.ops list) ≤ length (L.ops list) * (result / 16) }
{
    let mut bits: u32 = 0;
    for i in 0..list.count() {
        bits |= list.op(i);
    }
    bits
}

// The sum of the lengths of all ops.
fn total<L: OpList>(list: L) -> u64
    ensures { result ≡ sum_of len_of (L.ops list) }
{
    let mut sum: u64 = 0;
    for i in 0..list.count() {
        sum += ops::length_of(list.op(i));
    }
    sum
}

// An amount within the clips, of which h are hard and then s soft.
fn upgrade(h: u64, s: u64, amount: u64, skip: usize) -> Plan
    requires { h + s < 2 ^ 28 }
    ensures by_index { (xs : List ℕ) → cut_of xs result.skip result.heads result.first result.second result.lost ≡ upgraded h s amount (drop skip xs) }
    ensures skip_value { (result.skip ≡ skip) × (result.heads ≤ 2) }
{
    let u = amount.saturating_sub(h);
    if s <= u {
        return Plan {
            skip,
            heads: 1,
            first: clip_taking::encode_op(5, h + s),
            second: 0,
            lost: 0,
        };
    }
    Plan {
        skip,
        heads: 2,
        first: clip_taking::encode_op(5, h + u),
        second: clip_taking::encode_op(4, s - u),
        lost: 0,
    }
}

// The list as it is.
fn unchanged() -> Plan
    ensures { (result.skip ≡ 0) × (result.heads ≡ 0) × (result.lost ≡ 0) }
{
    Plan {
        skip: 0,
        heads: 0,
        first: 0,
        second: 0,
        lost: 0,
    }
}

// Whether an op that a clip begins with is an M, = or X of more bases than are clipped; false where that is not asked.
fn ends_within(quick: bool, op: u32, amount: u64) -> bool
    ensures { result ≡ true → (code_of op ≡ 1 → ⊥) × (amount < read_len op) }
{
    quick && op % 16 != 1 && amount < ops::read_len(op)
}

// A clip that ends within the first op: one H, and what is left of the op.
fn cut_first(op: u32, amount: u64) -> Plan
    requires { amount < len_of op }
    ensures skip_value { (result.skip ≡ 1) × (result.heads ≡ 2) × (result.lost ≡ amount) }
    ensures first_value { (result.first ≡ op_of amount 5) × (result.second ≡ op_of (len_of op - amount) (code_of op)) }
{
    Plan {
        skip: 1,
        heads: 2,
        first: clip_taking::encode_op(5, amount),
        second: clip_taking::encode_op(op % 16, ops::length_of(op) - amount),
        lost: amount,
    }
}

// The plan of a list that is not too long. A clip that ends within the first op may be made at once, and any other goes through the runs of clips and takes bases. Refusal 19: the taking goes through
// every op inside, so it falls short exactly where the amount is beyond what can be clipped.
fn make_plan<L: OpList>(list: L, amount: u64, start: bool, quick: bool) -> Answer<Plan>
    requires { sum_of len_of (L.ops list) < 2 ^ 28 }
    ensures { MadeIs (L.ops list) amount start result }
{
    if amount == 0 {
        return Ok(unchanged());
    }
    if list.count() == 0 {
        return Ok(unchanged());
    }
    let seen = Facing::new(list, start);
    let op = seen.op(0);
    if ends_within(quick, op, amount) {
        return Ok(cut_first(op, amount));
    }
    let clips = clip_runs::leading_clips(seen);
    let outer = clip_runs::outer_runs(seen);
    if amount <= clips {
        return Ok(upgrade(outer.hard, outer.soft, amount, outer.next));
    }
    let n = amount - clips;
    let t = clip_taking::take_bases(seen, outer.next, n);
    if t.bases < n {
        return Err(Refusal::AmountBeyond);
    }
    Ok(Plan {
        skip: t.next,
        heads: 1 + t.cut,
        first: clip_taking::encode_op(5, outer.hard + outer.soft + t.bases),
        second: t.rest,
        lost: t.lost,
    })
}
