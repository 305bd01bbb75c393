// Unclipped ends, start and end.
ghost use Rattle.std.specs.Prelude.{◌≡◌};
ghost use Rattle.answers.specs.Answers.{tell_place0, tell_place1};
ghost use Rattle.ends_rules.specs.Ends.{unclipped_of, tell_unclipped, unclipped_from, alignment_start, alignment_end};
ghost use Rattle.border.specs.Border.{int_of, found_of, position_of, flagged};

use answers::Pos0;
use border::{ToldFound, ToldInt, ToldPosition};

#[unsafe(no_mangle)]
pub extern "C" fn cigar_unclipped_5prime_from_raw_bam(rec: &[u8]) -> ToldPosition
    ensures { result ≡ position_of (tell_unclipped (unclipped_of rec.now)) }
{
    border_reads::told_unclipped(unclipped::unclipped_5prime_from_raw_bam(rec))
}

#[unsafe(no_mangle)]
pub extern "C" fn cigar_unclipped_5prime_raw(rec: &[u8], position: i32, reverse: u8) -> ToldInt
    ensures { result ≡ int_of (tell_place0 (unclipped_from rec.now (record { 0 = position }) (flagged reverse))) }
{
    unclipped::unclipped_5prime_raw(rec, Pos0(position), border::flag(reverse)).into()
}

#[unsafe(no_mangle)]
pub extern "C" fn cigar_alignment_start_from_raw(rec: &[u8]) -> ToldFound
    ensures { result ≡ found_of (tell_place1 (alignment_start rec.now)) }
{
    ends::alignment_start_from_raw(rec).into()
}

#[unsafe(no_mangle)]
pub extern "C" fn cigar_alignment_end_from_raw(rec: &[u8]) -> ToldFound
    ensures { result ≡ found_of (tell_place1 (alignment_end rec.now)) }
{
    ends::alignment_end_from_raw(rec).into()
}
