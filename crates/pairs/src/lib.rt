// Document 01, module 10: the pair tests. `fr_with_mate` and `primary_fr` are inner: their callers have tested that each record has 32 bytes.
#![tactic(auto)]

ghost use Rattle.std.specs.Prelude.{◌≡◌, Bool, true, ◌≤◌, length};
ghost use Rattle.std.specs.Int.Signed.{le_z};
ghost use Rattle.sam.specs.Record.{flags_of, is_reverse};
ghost use Rattle.pairs_rules.specs.Pairs.{both_mapped, is_opposite, start_of, last_of, mate_starts_before, fr_by, is_fr, is_fr_with_mate, are_opposite, is_primary_fr, opposite_pair, fr_pair, primary_fr_pair};

use answers::{Answer, Pos0, Refusal};

// By a record's flag, whether it and its mate are mapped.
#[tactic(auto, unfolding(pairs_rules::specs::Pairs::both_mapped))]
fn both_mapped(flags: u32) -> bool
    ensures { result ≡ both_mapped flags }
{
    !fields::is_unmapped(flags) && !fields::is_mate_unmapped(flags)
}

// Paired, both mapped, same reference, strands differ.
#[tactic(auto, unfolding(pairs_rules::specs::Pairs::is_opposite))]
fn opposite(bam: &[u8]) -> bool
    requires { 32 ≤ length bam.now }
    ensures { result ≡ is_opposite bam.now }
{
    let flags = little_endian::u16_at(bam, 14);
    fields::is_paired(flags)
        && both_mapped(flags)
        && signed::same(
            little_endian::i32_at(bam, 0),
            little_endian::i32_at(bam, 20),
        )
        && fields::is_reverse(flags) != fields::is_mate_reverse(flags)
}

// Whether the start of one alignment is at most the end of another, which has n reference bases: s + 1 ≤ p + 1 + n - 1.
fn starts_before_end(s: Pos0, p: Pos0, n: i32) -> bool
    ensures { result ≡ le_z (start_of s.0) (last_of p.0 n) }
{
    let start = signed::raise(s.0) + 2147483648;
    start < signed::raise(p.0) + signed::raise(n)
}

// A reverse record's test: its mate's start against its own end. The refusal of its length is passed on.
fn mate_starts_before(bam: &[u8]) -> Answer<bool>
    requires { 32 ≤ length bam.now }
    ensures { result ≡ mate_starts_before bam.now }
{
    let mate = fields::mate_place(bam);
    let own = fields::own_place(bam);
    let n = lengths::reference_length_from_raw_bam(bam)?;
    Ok(starts_before_end(mate, own, n))
}

// FR of a reverse record, whatever the test of a forward one.
fn reverse_fr(bam: &[u8]) -> Answer<bool>
    requires in_bounds { 32 ≤ length bam.now }
    requires bam_value { is_reverse (flags_of bam.now) ≡ true }
    ensures { (forward : Bool) → result ≡ fr_by forward bam.now }
{
    if !opposite(bam) {
        return Ok(false);
    }
    mate_starts_before(bam)
}

// FR by the record alone; a forward record's template length decides.
fn fr(bam: &[u8]) -> Answer<bool>
    requires { 32 ≤ length bam.now }
    ensures { result ≡ is_fr bam.now }
{
    if fields::is_reverse(little_endian::u16_at(bam, 14)) {
        return reverse_fr(bam);
    }
    if !opposite(bam) {
        return Ok(false);
    }
    Ok(1 <= little_endian::i32_at(bam, 28))
}

// FR by the record and the mate's reference length.
pub fn fr_with_mate(bam: &[u8], n: i32) -> Answer<bool>
    requires { 32 ≤ length bam.now }
    ensures { result ≡ is_fr_with_mate bam.now n }
{
    if fields::is_reverse(little_endian::u16_at(bam, 14)) {
        return reverse_fr(bam);
    }
    if !opposite(bam) {
        return Ok(false);
    }
    let own = fields::own_place(bam);
    let mate = fields::mate_place(bam);
    Ok(starts_before_end(own, mate, n))
}

// Of two records: all of them mapped, same reference, strands differ.
#[tactic(auto, unfolding(pairs_rules::specs::Pairs::are_opposite))]
fn both_opposite(a: &[u8], b: &[u8]) -> bool
    requires { (32 ≤ length a.now) × (32 ≤ length b.now) }
    ensures { result ≡ are_opposite a.now b.now }
{
    let flags = little_endian::u16_at(a, 14);
    let other = little_endian::u16_at(b, 14);
    both_mapped(flags)
        && both_mapped(other)
        && signed::same(little_endian::i32_at(a, 0), little_endian::i32_at(b, 0))
        && fields::is_reverse(flags) != fields::is_reverse(other)
}

// FR by both records; the reverse one decides.
pub fn primary_fr(a: &[u8], b: &[u8]) -> Answer<bool>
    requires { (32 ≤ length a.now) × (32 ≤ length b.now) }
    ensures { result ≡ is_primary_fr a.now b.now }
{
    if !both_opposite(a, b) {
        return Ok(false);
    }
    if fields::is_reverse(little_endian::u16_at(a, 14)) {
        return reverse_fr(a);
    }
    reverse_fr(b)
}

// Paired, both mapped, same reference, strands differ. Refusal 1.
pub fn is_mapped_opposite_strand_pair_raw(bam: &[u8]) -> Answer<bool>
    ensures { result ≡ opposite_pair bam.now }
{
    if bam.len() < 32 {
        return Err(Refusal::ShortRecord);
    }
    Ok(opposite(bam))
}

// FR by the record alone. Refusals 1, 2 and 4.
pub fn is_fr_pair_raw(bam: &[u8]) -> Answer<bool>
    ensures { result ≡ fr_pair bam.now }
{
    if bam.len() < 32 {
        return Err(Refusal::ShortRecord);
    }
    fr(bam)
}

// FR by both records. Refusals 1, 2 and 4.
pub fn is_primary_fr_pair_raw(a: &[u8], b: &[u8]) -> Answer<bool>
    ensures { result ≡ primary_fr_pair a.now b.now }
{
    if a.len() < 32 {
        return Err(Refusal::ShortRecord);
    }
    if b.len() < 32 {
        return Err(Refusal::ShortRecord);
    }
    primary_fr(a, b)
}
