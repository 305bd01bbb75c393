// Document 01, module 11: the bin of a region, and of a record.
#![tactic(auto)]

ghost use Rattle.std.specs.Prelude.{◌≡◌, ◌<◌, pos, ◌+ℤ◌};
ghost use Rattle.answers.specs.Settled.{Settled};
ghost use Rattle.signed.specs.Equal.{eqℤ};
ghost use Rattle.bin_rules.specs.Bin.{shr, bin_of, low16, reg2bin, span_of, bin_from, record_bin, set_bin};

use answers::{Answer, Pos0, Refusal};

// The bin of a record that has no position, `reg2bin(-1, 0)`.
pub const UNMAPPED_BIN: u32 = 4680;

// The low 16 bits.
fn low_bits(x: i32) -> u32
    ensures { (result ≡ low16 x) × (result < 65536) }
{
    (signed::raise(x) % 65536) as u32
}

// x / 2^k, rounded down.
fn shifted(x: i32, k: u32) -> i32
    requires { k < 32 }
    ensures { result ≡ shr x k }
{
    x >> k
}

fn agree(beg: i32, last: i32, k: u32) -> bool
    requires { k < 32 }
    ensures { result ≡ eqℤ (shr beg k) (shr last k) }
{
    shifted(beg, k) == shifted(last, k)
}

// The low 16 bits of first + beg / 2^k.
fn bin_at(beg: i32, first: u32, k: u32) -> u32
    requires { (k < 32) × (first < 65536) }
    ensures { result ≡ low16 (pos first +ℤ shr beg k) }
{
    (first + low_bits(shifted(beg, k))) % 65536
}

// The first shift at which the ends agree.
fn bin_of(beg: i32, last: i32) -> u32
    ensures { result ≡ low16 (bin_of beg last) }
{
    if agree(beg, last, 14) {
        return bin_at(beg, 4681, 14);
    }
    if agree(beg, last, 17) {
        return bin_at(beg, 585, 17);
    }
    if agree(beg, last, 20) {
        return bin_at(beg, 73, 20);
    }
    if agree(beg, last, 23) {
        return bin_at(beg, 9, 23);
    }
    if agree(beg, last, 26) {
        return bin_at(beg, 1, 26);
    }
    0
}

// The bin of the region from beg to before end. Refusal 4.
pub fn reg2bin(beg: Pos0, end: i32) -> Answer<u32>
    ensures { result ≡ reg2bin beg.0 end }
{
    let last = signed::checked_sub(end, 1).ok_or(Refusal::Overflow)?;
    Ok(bin_of(beg.0, last))
}

// At least 1.
fn span_of(n: i32) -> i32
    ensures { result ≡ span_of n }
{
    n.max(1)
}

// The bin of a region of n bases, at least 1. Refusal 4.
pub fn bin_from(beg: Pos0, n: i32) -> Answer<u32>
    ensures { result ≡ bin_from beg.0 (Ok n) }
{
    let end = signed::checked_add(beg.0, span_of(n)).ok_or(Refusal::Overflow)?;
    reg2bin(beg, end)
}

// A record's bin. Refusals 1, 2 and 4.
pub fn bin_from_raw_bam(bam: &[u8]) -> Answer<u32>
    ensures { result ≡ record_bin bam.now }
{
    if bam.len() < 32 {
        return Err(Refusal::ShortRecord);
    }
    let start = fields::own_place(bam);
    if start.0 < 0 {
        return Ok(UNMAPPED_BIN);
    }
    let n = lengths::reference_length_from_raw_bam(bam)?;
    bin_from(start, n)
}

// Writes a record's bin to its bytes 10 and 11, and answers it. Refusals 1, 2 and 4.
pub fn set_bin_from_raw_bam(bam: &mut [u8]) -> Answer<u32>
    ensures { Settled (set_bin bam.old) result bam.new }
{
    if bam.len() < 32 {
        return Err(Refusal::ShortRecord);
    }
    let n = bin_from_raw_bam(bam)?;
    bam[10] = (n % 256) as u8;
    bam[11] = (n / 256 % 256) as u8;
    Ok(n)
}
