// Lengths.
ghost use Rattle.std.specs.Prelude.{◌≡◌};
ghost use Rattle.answers.specs.Answers.{tell_int, tell_count};
ghost use Rattle.length_rules.specs.Lengths.{ref_length, query_length, saturated_length, checked_ref_length, record_query_length, record_lengths, tell_lengths};
ghost use Rattle.border.specs.Border.{int_of, count_of, lengths_of};

use border::{ToldCount, ToldInt, ToldLengths};

#[unsafe(no_mangle)]
pub extern "C" fn cigar_reference_length_from_cigar(ops: &[u32]) -> ToldInt
    ensures { result ≡ int_of (tell_int (ref_length ops.now)) }
{
    lengths::reference_length_from_cigar(ops).into()
}

#[unsafe(no_mangle)]
pub extern "C" fn cigar_query_length_from_cigar(ops: &[u32]) -> ToldCount
    ensures { result ≡ count_of (tell_count (query_length ops.now)) }
{
    lengths::query_length_from_cigar(ops).into()
}

#[unsafe(no_mangle)]
pub extern "C" fn cigar_saturating_reference_length(ops: &[u32]) -> ToldInt
    ensures { result ≡ int_of (tell_int (saturated_length ops.now)) }
{
    lengths::saturating_reference_length(ops).into()
}

#[unsafe(no_mangle)]
pub extern "C" fn cigar_reference_length_from_raw_bam(rec: &[u8]) -> ToldInt
    ensures { result ≡ int_of (tell_int (checked_ref_length rec.now)) }
{
    lengths::reference_length_from_raw_bam(rec).into()
}

#[unsafe(no_mangle)]
pub extern "C" fn cigar_reference_length_from_raw_bam_checked(rec: &[u8]) -> ToldInt
    ensures { result ≡ int_of (tell_int (checked_ref_length rec.now)) }
{
    lengths::reference_length_from_raw_bam_checked(rec).into()
}

#[unsafe(no_mangle)]
pub extern "C" fn cigar_query_length(rec: &[u8]) -> ToldCount
    ensures { result ≡ count_of (tell_count (record_query_length rec.now)) }
{
    lengths::query_length(rec).into()
}

#[unsafe(no_mangle)]
pub extern "C" fn cigar_cigar_lengths(rec: &[u8]) -> ToldLengths
    ensures { result ≡ lengths_of (tell_lengths (record_lengths rec.now)) }
{
    border_lengths::told_lengths(lengths::cigar_lengths(rec))
}
