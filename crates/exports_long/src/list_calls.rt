// Lent lists of up to 1,048,576 ops.
ghost use Rattle.std.specs.Prelude.{◌≡◌};
ghost use Rattle.answers.specs.Answers.{tell_int, tell_count};
ghost use Rattle.answers.specs.Settled.{Settled};
ghost use Rattle.length_rules.specs.Lengths.{long_ref_length, long_query_length};
ghost use Rattle.lookup_rules.specs.Lookup.{long_looked, tell_found};
ghost use Rattle.clip_rules.specs.Answer.{long_start, long_end, tell_clipped};
ghost use Rattle.border.specs.Border.{int_of, count_of, lookup_of, two_of, flagged, across};

use border::{ToldCount, ToldInt, ToldLookup, ToldTwo};

#[unsafe(no_mangle)]
pub extern "C" fn cigar_long_reference_length_from_cigar(ops: &[u32]) -> ToldInt
    ensures { result ≡ int_of (tell_int (long_ref_length ops.now)) }
{
    lengths::long_reference_length_from_cigar(ops).into()
}

#[unsafe(no_mangle)]
pub extern "C" fn cigar_long_query_length_from_cigar(ops: &[u32]) -> ToldCount
    ensures { result ≡ count_of (tell_count (long_query_length ops.now)) }
{
    lengths::long_query_length_from_cigar(ops).into()
}

#[unsafe(no_mangle)]
pub extern "C" fn cigar_long_read_pos_at_ref_pos_raw(
    ops: &[u32],
    start: u64,
    position: u64,
    asked: u8,
) -> ToldLookup
    ensures { result ≡ lookup_of (tell_found (long_looked ops.now start position (flagged asked))) }
{
    border_reads::told_found(lookup::long_read_pos_at_ref_pos_raw(
        ops,
        start,
        position,
        border::flag(asked),
    ))
}

#[unsafe(no_mangle)]
pub extern "C" fn cigar_long_clip_cigar_start_raw(
    ops: &[u32],
    amount: u64,
    out: &mut [u32],
) -> ToldTwo
    ensures { Settled (across two_of tell_clipped (long_start ops.now amount out.old)) result out.new }
{
    border_reads::told_clipped(clip::long_clip_cigar_start_raw(ops, amount, out))
}

#[unsafe(no_mangle)]
pub extern "C" fn cigar_long_clip_cigar_end_raw(
    ops: &[u32],
    amount: u64,
    out: &mut [u32],
) -> ToldCount
    ensures { Settled (across count_of tell_count (long_end ops.now amount out.old)) result out.new }
{
    clip::long_clip_cigar_end_raw(ops, amount, out).into()
}
