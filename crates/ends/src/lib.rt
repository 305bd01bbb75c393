// Document 01, module 7: start and end of a record. Positions are counted from 0 in records, and from 1 in answers.
#![tactic(auto)]

ghost use Rattle.std.specs.Prelude.{◌≡◌};
ghost use Rattle.ends_rules.specs.Ends.{plus_one, one_based, alignment_start, end_at, alignment_end};

use answers::{Answer, Pos0, Pos1, Refusal};

// The same position counted from 1, where that is an i32.
pub fn plus_one(p: Pos0) -> Option<i32>
    ensures { result ≡ plus_one p }
{
    signed::checked_add(p.0, 1)
}

// The same, as an answer: never none. Refusal 4.
pub fn one_based(p: Pos0) -> Answer<Option<Pos1>>
    ensures { result ≡ one_based p }
{
    let place = plus_one(p).ok_or(Refusal::Overflow)?;
    Ok(Some(Pos1(place)))
}

// A record's first place; none where `pos` is negative. Refusals 1 and 4.
pub fn alignment_start_from_raw(bam: &[u8]) -> Answer<Option<Pos1>>
    ensures { result ≡ alignment_start bam.now }
{
    if bam.len() < 32 {
        return Err(Refusal::ShortRecord);
    }
    let pos = fields::own_place(bam);
    if pos.0 < 0 {
        return Ok(None);
    }
    one_based(pos)
}

// The last place of n reference bases; none where there are none. Refusal 4.
fn end_at(pos: Pos0, n: i32) -> Answer<Option<Pos1>>
    ensures { result ≡ end_at pos.0 (Ok n) }
{
    if signed::natural_of(n) == 0 {
        return Ok(None);
    }
    let place = signed::checked_add(pos.0, n).ok_or(Refusal::Overflow)?;
    Ok(Some(Pos1(place)))
}

// A record's last place; none where `pos` is negative or no reference is covered. Refusals 1, 2 and 4.
pub fn alignment_end_from_raw(bam: &[u8]) -> Answer<Option<Pos1>>
    ensures { result ≡ alignment_end bam.now }
{
    if bam.len() < 32 {
        return Err(Refusal::ShortRecord);
    }
    let pos = fields::own_place(bam);
    if pos.0 < 0 {
        return Ok(None);
    }
    let n = lengths::reference_length_from_raw_bam(bam)?;
    end_at(pos, n)
}
