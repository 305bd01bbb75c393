// Document 01, module 10: the query bases that a read has past its mate, over op lists wherever they lie.
#![tactic(auto)]

ghost use Rattle.std.specs.Prelude.{◌≡◌, ◌+◌, ◌≤◌, cond, ◌&&◌, ltb};
ghost use Rattle.sam.specs.Op.{code_of, is_query, ref_len};
ghost use Rattle.overhang_rules.specs.Reach.{bases_up_to, up_to};
ghost use Rattle.overhang_rules.specs.Overhang.{overhang_of, bases_extending};
ghost use Rattle.overhang_rules.specs.InnerSides.{past_of};

use answers::{Answer, Pos1, Refusal};
use oplist::{Facing, Lent, OpList};
use overhang_places::Extent;

// Whether an op with query bases over reference bases reaches past the next `span` positions.
fn reaches_past(op: u32, span: u64) -> bool
    ensures { result ≡ (is_query (code_of op) && ltb span (ref_len op)) }
{
    ops::consumes_query(op) && span < ops::ref_len(op)
}

// The query bases over the first n reference bases of an op that has more.
fn covered(op: u32, n: u64) -> u64
    ensures { (result ≡ cond (is_query (code_of op)) (n + 0) 0) × (result ≤ n) }
{
    if ops::consumes_query(op) { n } else { 0 }
}

// The query bases up to position `target`, and the one on it where `on` is 1. A place is a position raised by 2^31.
fn bases_up_to<L: OpList>(list: L, start: Pos1, target: Pos1, on: u64) -> u64
    requires { on ≤ 1 }
    ensures { result ≡ bases_up_to on target.0 start.0 (L.ops list) }
{
    let last = signed::raise(target.0);
    let mut place = signed::raise(start.0);
    let mut bases: u64 = 0;
    for i in 0..list.count() {
        if last < place {
            return bases;
        }
        let op = list.op(i);
        let span = last - place + on;
        if reaches_past(op, span) {
            return bases + span;
        }
        bases += ops::query_len(op);
        place = overhang_places::place_after(place, ops::ref_len(op));
    }
    bases
}

// The query bases over the first `room` reference bases.
fn within<L: OpList>(list: L, room: u64) -> u64
    ensures { result ≡ up_to 0 (L.ops list) room }
{
    let mut left = room;
    let mut bases: u64 = 0;
    for i in 0..list.count() {
        let op = list.op(i);
        let span = ops::ref_len(op);
        if left < span {
            return bases + covered(op, left);
        }
        bases += ops::query_len(op);
        left -= span;
    }
    bases
}

// The query bases past the target, on the side that is measured, by the walk that holds its positions.
fn clamped_past<L: OpList>(list: L, start: Pos1, target: Pos1, reverse: bool) -> u64
    ensures { result ≡ past_of reverse target.0 start.0 (L.ops list) }
{
    if reverse {
        return bases_up_to(list, start, target, 0);
    }
    op_sums::sums(list)
        .query
        .saturating_sub(bases_up_to(list, start, target, 1))
}

// The query bases that a read has past its mate.
pub fn overhang<L: OpList, M: OpList>(
    reverse: bool,
    this: Pos1,
    list: L,
    mate: Pos1,
    mate_list: M,
) -> u64
    ensures { result ≡ overhang_of reverse this.0 (L.ops list) mate.0 (M.ops mate_list) }
{
    let own = Extent::new(this, op_sums::sums(list).refs);
    let other = Extent::new(mate, op_sums::sums(mate_list).refs);
    let facing = Facing::new(list, reverse);
    let mate_facing = Facing::new(mate_list, reverse);
    if own.stops_short(reverse, other) {
        let gap = own.clip_gap(reverse, other, clip_runs::leading_soft(mate_facing));
        return clip_runs::leading_soft(facing).saturating_sub(gap);
    }
    if own.stops_short(!reverse, other) {
        return 0;
    }
    let target = own.meeting(reverse, other);
    if own.is_clamped(reverse, other, target) {
        let past = clamped_past(list, own.start, target, reverse);
        return past.saturating_sub(clamped_past(mate_list, other.start, target, reverse));
    }
    let past = within(facing, own.room_past(reverse, target));
    past.saturating_sub(within(mate_facing, other.room_past(reverse, target)))
}

// The query bases that a read has past its mate. Refusal 3.
pub fn bases_extending_past_mate_ops(
    is_reverse: bool,
    this_pos: Pos1,
    this_ops: &[u32],
    mate_pos: Pos1,
    mate_ops: &[u32],
) -> Answer<u64>
    ensures { result ≡ bases_extending is_reverse this_pos.0 this_ops.now mate_pos.0 mate_ops.now }
{
    let own = Lent::new(this_ops, oplist::MOST_OPS).ok_or(Refusal::TooManyOps)?;
    let other = Lent::new(mate_ops, oplist::MOST_OPS).ok_or(Refusal::TooManyOps)?;
    Ok(overhang(is_reverse, this_pos, own, mate_pos, other))
}
