// Document 01, module 7: unclipped ends of a record. Positions are counted from 0 in records, and from 1 in answers.
#![tactic(auto)]

ghost use Rattle.std.specs.Prelude.{◌≡◌};
ghost use Rattle.ends_rules.specs.Ends.{five_prime, unclipped_by, unclipped_of, unclipped_from};

use answers::{Answer, Pos0, Pos1, Refusal};
use ends_rules::Unclipped;
use oplist::OpList;

// The 5' end of an op list aligned at `at`; counted as `at` is. None where a sum overflows.
// Inlined, since most reads have few ops: by a call of its own the 5' end of one takes a quarter more instructions.
#[inline(always)]
fn five_prime<L: OpList>(at: i32, list: L, reverse: bool) -> Option<i32>
    ensures { result ≡ five_prime reverse at (L.ops list) }
{
    if reverse {
        return end_sums::end_from(at, end_sums::tail_of(list));
    }
    end_sums::start_from(at, clip_runs::leading_clips(list))
}

// A record's unclipped 5' position, or that it is unmapped, or that it has no ops or they overrun it. Refusals 1 and 4.
pub fn unclipped_5prime_from_raw_bam(bam: &[u8]) -> Answer<Unclipped>
    ensures { result ≡ unclipped_of bam.now }
{
    if bam.len() < 32 {
        return Err(Refusal::ShortRecord);
    }
    let flags = little_endian::u16_at(bam, 14);
    if fields::is_unmapped(flags) {
        return Ok(Unclipped::Unmapped);
    }
    unclipped_by(
        oplist::of_record(bam),
        fields::own_place(bam),
        fields::is_reverse(flags),
    )
}

// The 5' position by an op list aligned at `pos`, or that it has no ops. Refusal 4.
pub fn unclipped_by<L: OpList>(list: L, pos: Pos0, reverse: bool) -> Answer<Unclipped>
    ensures { result ≡ unclipped_by (L.ops list) pos reverse }
{
    if list.count() == 0 {
        return Ok(Unclipped::NoOps);
    }
    let from = ends::plus_one(pos).ok_or(Refusal::Overflow)?;
    let at = five_prime(from, list, reverse).ok_or(Refusal::Overflow)?;
    Ok(Unclipped::At(Pos1(at)))
}

// The position from a given one and strand; the given position where the record has no ops or they overrun it. Refusals 1 and 4.
pub fn unclipped_5prime_raw(bam: &[u8], pos: Pos0, reverse: bool) -> Answer<Pos0>
    ensures { result ≡ unclipped_from bam.now pos reverse }
{
    if bam.len() < 32 {
        return Err(Refusal::ShortRecord);
    }
    let list = oplist::of_record(bam);
    if list.count() == 0 {
        return Ok(pos);
    }
    let at = five_prime(pos.0, list, reverse).ok_or(Refusal::Overflow)?;
    Ok(Pos0(at))
}
