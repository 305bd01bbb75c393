// Document 01, module 3: lengths of op lists, lent or in a record. One walk, and thin calls over it.
#![tactic(auto)]

ghost use Rattle.std.specs.Prelude.{◌≡◌, ◌≤◌};
ghost use Rattle.length_rules.specs.Lengths.{ref_length_up_to, query_length_up_to, ref_length, query_length, long_ref_length, long_query_length, saturated_length, checked_ref_length, record_query_length, record_lengths};

use answers::{Answer, Refusal};
use length_rules::RecordLengths;
use oplist::Lent;

// The reference length of a lent list of at most `limit` ops. Refusals 3 and 4.
fn reference_length_up_to(limit: usize, cigar: &[u32]) -> Answer<i32>
    requires { limit ≤ 4294967295 }
    ensures { result ≡ ref_length_up_to limit cigar.now }
{
    let Some(list) = Lent::new(cigar, limit) else {
        return Err(Refusal::TooManyOps);
    };
    op_sums::as_int(op_sums::sums(list).refs)
}

// The query length of a lent list of at most `limit` ops. Refusal 3.
fn query_length_up_to(limit: usize, cigar: &[u32]) -> Answer<u64>
    requires { limit ≤ 4294967295 }
    ensures { result ≡ query_length_up_to limit cigar.now }
{
    let Some(list) = Lent::new(cigar, limit) else {
        return Err(Refusal::TooManyOps);
    };
    Ok(op_sums::sums(list).query)
}

// The reference length of a lent list. Refusals 3 and 4.
pub fn reference_length_from_cigar(cigar: &[u32]) -> Answer<i32>
    ensures { result ≡ ref_length cigar.now }
{
    reference_length_up_to(oplist::MOST_OPS, cigar)
}

// The same of a long list.
pub fn long_reference_length_from_cigar(cigar: &[u32]) -> Answer<i32>
    ensures { result ≡ long_ref_length cigar.now }
{
    reference_length_up_to(oplist::MOST_LONG_OPS, cigar)
}

// The query length of a lent list. Refusal 3.
pub fn query_length_from_cigar(cigar: &[u32]) -> Answer<u64>
    ensures { result ≡ query_length cigar.now }
{
    query_length_up_to(oplist::MOST_OPS, cigar)
}

// The same of a long list.
pub fn long_query_length_from_cigar(cigar: &[u32]) -> Answer<u64>
    ensures { result ≡ long_query_length cigar.now }
{
    query_length_up_to(oplist::MOST_LONG_OPS, cigar)
}

// The reference length of a lent list, at most 2^31 - 1. Refusal 3.
pub fn saturating_reference_length(cigar: &[u32]) -> Answer<i32>
    ensures { result ≡ saturated_length cigar.now }
{
    let Some(list) = Lent::new(cigar, oplist::MOST_OPS) else {
        return Err(Refusal::TooManyOps);
    };
    Ok(op_sums::saturated(op_sums::sums(list).refs))
}

// A record's reference length. Refusals 1, 2 and 4.
pub fn reference_length_from_raw_bam_checked(bam: &[u8]) -> Answer<i32>
    ensures { result ≡ checked_ref_length bam.now }
{
    if bam.len() < 32 {
        return Err(Refusal::ShortRecord);
    }
    if !oplist::inside(bam, oplist::area_of(bam)) {
        return Err(Refusal::AreaOverrun);
    }
    op_sums::as_int(op_sums::sums(oplist::of_record(bam)).refs)
}

// The same. Ends, bins and pair tests ask this one, as in the Rust, and pass a refusal on.
pub fn reference_length_from_raw_bam(bam: &[u8]) -> Answer<i32>
    ensures { result ≡ checked_ref_length bam.now }
{
    reference_length_from_raw_bam_checked(bam)
}

// A record's query length. Refusal 1.
pub fn query_length(bam: &[u8]) -> Answer<u64>
    ensures { result ≡ record_query_length bam.now }
{
    if bam.len() < 32 {
        return Err(Refusal::ShortRecord);
    }
    Ok(op_sums::sums(oplist::of_record(bam)).query)
}

// A record's lengths and the clips at its ends. Refusals 1 and 4.
pub fn cigar_lengths(bam: &[u8]) -> Answer<RecordLengths>
    ensures { result ≡ record_lengths bam.now }
{
    if bam.len() < 32 {
        return Err(Refusal::ShortRecord);
    }
    list_lengths::list_lengths(oplist::of_record(bam))
}
