// Document 01, section Program: the line that stands for a record, written into lent memory. An inner crate of the program.
#![tactic(auto)]

ghost use Rattle.std.specs.Prelude.{◌≡◌, ◌+◌, ◌≤◌, length};
ghost use Rattle.answers.specs.Answers.{number_of};
ghost use Rattle.line_rules.specs.Line.{tabbed, refused_fields, line_of};
ghost use Rattle.line_rules.specs.Inner.{TextPut, row_fields, figures_of};
ghost use Rattle.put_text.specs.Puts.{Put};

use answers::{Answer, Refusal};
use line_rules::LineRow;

// The most bytes of a record's text.
pub const TEXT_ROOM: usize = 65536;

// The figures of a record that has 32 bytes. Refusals 2 and 4.
fn row_of(rec: &[u8]) -> Answer<LineRow>
    requires { 32 ≤ length rec.now }
    ensures { result ≡ figures_of rec.now }
{
    if !oplist::inside(rec, oplist::area_of(rec)) {
        return Err(Refusal::AreaOverrun);
    }
    let total = op_sums::sums(oplist::of_record(rec));
    let refs = op_sums::as_int(total.refs)?;
    let five = unclipped::unclipped_5prime_from_raw_bam(rec)?;
    let bin = bin::bin_from_raw_bam(rec)?;
    let mark = report_fields::length_mark(total.query, little_endian::u32_at(rec, 16));
    Ok(LineRow {
        refs,
        query: total.query,
        five,
        bin,
        mark,
    })
}

// A tab and the record's text, or `*`. Refusals 1, 7 and 6.
fn put_text(rec: &[u8], out: &mut [u8], at: usize) -> Answer<usize>
    requires { at + 65537 ≤ length out.old }
    ensures { TextPut rec.now out.old at result out.new }
{
    let from = put_text::put_byte(b'\t', out, at);
    let end = from + TEXT_ROOM;
    let n = print::cigar_to_bytes_into(rec, &mut out[from..end])?;
    if n == 0 {
        return Ok(put_text::put_byte(b'*', out, from));
    }
    Ok(from + n as usize)
}

fn put_row(row: LineRow, out: &mut [u8], at: usize) -> usize
    requires { at + 108 ≤ length out.old }
    ensures put { Put out.old at (tabbed (row_fields row)) result out.new }
    ensures upper_bound { result ≤ at + 108 }
{
    let query = put_text::put_signed(row.refs, out, at);
    let five = put_text::put_field(row.query, out, query);
    let bin = report_fields::put_five(Ok(row.five), out, five);
    let mark = put_text::put_field(row.bin as u64, out, bin);
    report_fields::put_last(row.mark, out, mark)
}

fn put_refusal(why: Refusal, out: &mut [u8], at: usize) -> usize
    requires { at + 30 ≤ length out.old }
    ensures put { Put out.old at (tabbed (refused_fields (number_of why))) result out.new }
    ensures upper_bound { result ≤ at + 30 }
{
    let from = put_text::put_bytes(b"\trefused", out, at);
    let end = put_text::put_field(answers::number(why) as u64, out, from);
    put_text::put_byte(b'\n', out, end)
}

// The line of a record, from place `at` on; answers the place behind it.
pub fn line(number: u64, rec: &[u8], out: &mut [u8], at: usize) -> usize
    requires { at + 65792 ≤ length out.old }
    ensures put { Put out.old at (line_of number rec.now) result out.new }
    ensures upper_bound { result ≤ at + 65792 }
{
    let from = put_text::put_number(number, out, at);
    // No `?`: either refusal is written here, behind the number.
    match put_text(rec, out, from) {
        Err(why) => put_refusal(why, out, from),
        Ok(behind) => match row_of(rec) {
            Err(why) => put_refusal(why, out, from),
            Ok(row) => put_row(row, out, behind),
        },
    }
}
