// Document 01, module 1: the fields of a record, each with refusal 1 under 32 bytes, and where the ops lie.
#![tactic(auto)]

ghost use Rattle.std.specs.Prelude.{◌≡◌, ◌==◌, ◌/◌, ◌%◌, ◌≤◌, ◌<◌, length, IsOk};
ghost use Rattle.sam.specs.Record.{ref_id_of, pos_of, name_len_of, stored_bin_of, op_count_of, flags_of, seq_len_of, mate_ref_id_of, mate_pos_of, template_len_of, is_paired, is_unmapped, is_mate_unmapped, is_reverse, is_mate_reverse};
ghost use Rattle.fields.specs.Fields.{field, int_field, nat_field, pos_field, cigar_part, part_refusal, cigar_area};

use answers::{Answer, Pos0, Refusal};

// The bits of the flag.
pub const PAIRED: u32 = 1;

pub const UNMAPPED: u32 = 4;

pub const MATE_UNMAPPED: u32 = 8;

pub const REVERSE: u32 = 16;

pub const MATE_REVERSE: u32 = 32;

// Where the op area of a record lies: its place and its length in bytes, both 0 where it overruns.
#[derive(Clone, Copy)]
pub struct Area {
    pub start: u64,
    pub size: u64,
}

// A part of the record, and the refusal's number: 0, or the number that an empty part stands beside. No `Answer`, since where the answer
// would be a part of the record, an empty part stands beside the number (docs/RULES.md, "The refusals").
#[derive(Clone, Copy)]
pub struct Part<'a> {
    pub refusal: u32,
    pub part: &'a [u8],
}

// Whether a record has its fixed part, 32 bytes. Refusal 1.
fn whole(bam: &[u8]) -> Answer<()>
    ensures value { result ≡ field (λ b. tt) bam.now }
    ensures b_in_bounds { IsOk result → 32 ≤ length bam.now }
{
    if bam.len() < 32 {
        Err(Refusal::ShortRecord)
    } else {
        Ok(())
    }
}

// A record's position, for callers that have tested its length.
pub fn own_place(bam: &[u8]) -> Pos0
    requires { 32 ≤ length bam.now }
    ensures { result.0 ≡ pos_of bam.now }
{
    Pos0(little_endian::i32_at(bam, 4))
}

// Its mate's position, for the same callers.
pub fn mate_place(bam: &[u8]) -> Pos0
    requires { 32 ≤ length bam.now }
    ensures { result.0 ≡ mate_pos_of bam.now }
{
    Pos0(little_endian::i32_at(bam, 24))
}

pub fn ref_id(bam: &[u8]) -> Answer<i32>
    ensures { result ≡ int_field ref_id_of bam.now }
{
    whole(bam)?;
    Ok(little_endian::i32_at(bam, 0))
}

pub fn pos(bam: &[u8]) -> Answer<Pos0>
    ensures { result ≡ pos_field pos_of bam.now }
{
    whole(bam)?;
    Ok(own_place(bam))
}

pub fn l_read_name(bam: &[u8]) -> Answer<u32>
    ensures { result ≡ nat_field name_len_of bam.now }
{
    whole(bam)?;
    Ok(little_endian::u8_at(bam, 8))
}

pub fn bin(bam: &[u8]) -> Answer<u32>
    ensures { result ≡ nat_field stored_bin_of bam.now }
{
    whole(bam)?;
    Ok(little_endian::u16_at(bam, 10))
}

pub fn n_cigar_op(bam: &[u8]) -> Answer<u32>
    ensures { result ≡ nat_field op_count_of bam.now }
{
    whole(bam)?;
    Ok(little_endian::u16_at(bam, 12))
}

pub fn flags(bam: &[u8]) -> Answer<u32>
    ensures { result ≡ nat_field flags_of bam.now }
{
    whole(bam)?;
    Ok(little_endian::u16_at(bam, 14))
}

pub fn l_seq(bam: &[u8]) -> Answer<u32>
    ensures { result ≡ nat_field seq_len_of bam.now }
{
    whole(bam)?;
    Ok(little_endian::u32_at(bam, 16))
}

pub fn mate_ref_id(bam: &[u8]) -> Answer<i32>
    ensures { result ≡ int_field mate_ref_id_of bam.now }
{
    whole(bam)?;
    Ok(little_endian::i32_at(bam, 20))
}

pub fn mate_pos(bam: &[u8]) -> Answer<Pos0>
    ensures { result ≡ pos_field mate_pos_of bam.now }
{
    whole(bam)?;
    Ok(mate_place(bam))
}

pub fn template_length(bam: &[u8]) -> Answer<i32>
    ensures { result ≡ int_field template_len_of bam.now }
{
    whole(bam)?;
    Ok(little_endian::i32_at(bam, 28))
}

// Whether a bit of the flags is set.
fn has(flags: u32, bit: u32) -> bool
    requires { 0 < bit }
    ensures { result ≡ (flags / bit % 2 == 1) }
{
    flags / bit % 2 == 1
}

pub fn is_paired(flags: u32) -> bool
    ensures { result ≡ is_paired flags }
{
    has(flags, PAIRED)
}

pub fn is_unmapped(flags: u32) -> bool
    ensures { result ≡ is_unmapped flags }
{
    has(flags, UNMAPPED)
}

pub fn is_mate_unmapped(flags: u32) -> bool
    ensures { result ≡ is_mate_unmapped flags }
{
    has(flags, MATE_UNMAPPED)
}

pub fn is_reverse(flags: u32) -> bool
    ensures { result ≡ is_reverse flags }
{
    has(flags, REVERSE)
}

pub fn is_mate_reverse(flags: u32) -> bool
    ensures { result ≡ is_mate_reverse flags }
{
    has(flags, MATE_REVERSE)
}

// Where the ops of a record lie, as numbers: the static library's call, whose answer holds no reference. Refusal 1.
#[tactic(auto, unfolding(crate::specs::Fields::cigar_area))]
pub fn cigar_area(bam: &[u8]) -> Answer<Area>
    ensures { result ≡ cigar_area bam.now }
{
    whole(bam)?;
    let area = oplist::area_of(bam);
    if !oplist::inside(bam, area) {
        return Ok(Area { start: 0, size: 0 });
    }
    Ok(Area {
        start: area.at as u64,
        size: 4 * (area.n as u64),
    })
}

// The part of the record that holds its ops: empty where the area overruns, and under 32 bytes.
fn op_bytes(bam: &[u8]) -> &[u8]
    ensures { result.now ≡ cigar_part bam.now }
{
    if bam.len() < 32 {
        return &bam[..0];
    }
    let area = oplist::area_of(bam);
    if !oplist::inside(bam, area) {
        return &bam[..0];
    }
    let end = area.at + 4 * (area.n as usize);
    &bam[area.at..end]
}

// The number that stands beside that part: 1 under 32 bytes.
fn part_refusal(bam: &[u8]) -> u32
    ensures { result ≡ part_refusal bam.now }
{
    if bam.len() < 32 {
        return answers::number(Refusal::ShortRecord);
    }
    0
}

// The part of the record that holds its ops: an empty part where the area overruns, and beside refusal 1.
pub fn cigar_raw_bytes<'a>(bam: &'a [u8]) -> Part<'a>
    ensures { (result.refusal ≡ part_refusal bam.now) × (result.part.now ≡ cigar_part bam.now) }
{
    let refusal = part_refusal(bam);
    let part = op_bytes(bam);
    Part { refusal, part }
}
