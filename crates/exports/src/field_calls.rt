// Fields of a record.
ghost use Rattle.std.specs.Prelude.{◌≡◌};
ghost use Rattle.answers.specs.Answers.{tell_int, tell_nat, tell_place0};
ghost use Rattle.sam.specs.Record.{ref_id_of, pos_of, name_len_of, stored_bin_of, op_count_of, flags_of, seq_len_of, mate_ref_id_of, mate_pos_of, template_len_of};
ghost use Rattle.fields.specs.Fields.{int_field, nat_field, pos_field, cigar_area, tell_area};
ghost use Rattle.border.specs.Border.{int_of, count_of, two_of};

use answers::Answer;
use border::{ToldCount, ToldInt, ToldTwo};
use fields::Area;

#[unsafe(no_mangle)]
pub extern "C" fn cigar_ref_id(rec: &[u8]) -> ToldInt
    ensures { result ≡ int_of (tell_int (int_field ref_id_of rec.now)) }
{
    fields::ref_id(rec).into()
}

#[unsafe(no_mangle)]
pub extern "C" fn cigar_pos(rec: &[u8]) -> ToldInt
    ensures { result ≡ int_of (tell_place0 (pos_field pos_of rec.now)) }
{
    fields::pos(rec).into()
}

#[unsafe(no_mangle)]
pub extern "C" fn cigar_l_read_name(rec: &[u8]) -> ToldCount
    ensures { result ≡ count_of (tell_nat (nat_field name_len_of rec.now)) }
{
    fields::l_read_name(rec).into()
}

#[unsafe(no_mangle)]
pub extern "C" fn cigar_bin(rec: &[u8]) -> ToldCount
    ensures { result ≡ count_of (tell_nat (nat_field stored_bin_of rec.now)) }
{
    fields::bin(rec).into()
}

#[unsafe(no_mangle)]
pub extern "C" fn cigar_n_cigar_op(rec: &[u8]) -> ToldCount
    ensures { result ≡ count_of (tell_nat (nat_field op_count_of rec.now)) }
{
    fields::n_cigar_op(rec).into()
}

#[unsafe(no_mangle)]
pub extern "C" fn cigar_flags(rec: &[u8]) -> ToldCount
    ensures { result ≡ count_of (tell_nat (nat_field flags_of rec.now)) }
{
    fields::flags(rec).into()
}

#[unsafe(no_mangle)]
pub extern "C" fn cigar_l_seq(rec: &[u8]) -> ToldCount
    ensures { result ≡ count_of (tell_nat (nat_field seq_len_of rec.now)) }
{
    fields::l_seq(rec).into()
}

#[unsafe(no_mangle)]
pub extern "C" fn cigar_mate_ref_id(rec: &[u8]) -> ToldInt
    ensures { result ≡ int_of (tell_int (int_field mate_ref_id_of rec.now)) }
{
    fields::mate_ref_id(rec).into()
}

#[unsafe(no_mangle)]
pub extern "C" fn cigar_mate_pos(rec: &[u8]) -> ToldInt
    ensures { result ≡ int_of (tell_place0 (pos_field mate_pos_of rec.now)) }
{
    fields::mate_pos(rec).into()
}

#[unsafe(no_mangle)]
pub extern "C" fn cigar_template_length(rec: &[u8]) -> ToldInt
    ensures { result ≡ int_of (tell_int (int_field template_len_of rec.now)) }
{
    fields::template_length(rec).into()
}

// No `From`: both types are other crates'.
fn told_area(answer: Answer<Area>) -> ToldTwo
    ensures { result ≡ two_of (tell_area answer) }
{
    answer.map(|area| (area.start, area.size)).into()
}

#[unsafe(no_mangle)]
pub extern "C" fn cigar_cigar_raw_bytes(rec: &[u8]) -> ToldTwo
    ensures { result ≡ two_of (tell_area (cigar_area rec.now)) }
{
    told_area(fields::cigar_area(rec))
}
