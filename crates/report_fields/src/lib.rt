// Document 01, section Program: fields of a record's line, of its lengths and of its position, and the last one put. An inner crate of the program.
#![tactic(auto)]

ghost use Rattle.std.specs.Prelude.{◌≡◌, [], ◌∷◌, ◌+◌, ◌≤◌, length};
ghost use Rattle.line_rules.specs.Line.{or_dot, tabbed, length_mark};
ghost use Rattle.put_text.specs.Puts.{Put};

use answers::Answer;
use ends_rules::Unclipped;

// Whether the query length is that of the stored sequence, or `-` where none is stored.
pub fn length_mark(query: u64, seq: u32) -> u8
    ensures { result ≡ length_mark query seq }
{
    if seq == 0 {
        return b'-';
    }
    if query == u64::from(seq) {
        return b'1';
    }
    b'0'
}

// A tab, and the position, or `.` where there is none.
pub fn put_five(five: Answer<Unclipped>, out: &mut [u8], at: usize) -> usize
    requires { at + 22 ≤ length out.old }
    ensures put { Put out.old at (9 ∷ or_dot five) result out.new }
    ensures upper_bound { result ≤ at + 22 }
{
    match five {
        Ok(Unclipped::At(p)) => put_text::put_signed(p.0, out, at),
        _ => put_text::put_bytes(b"\t.", out, at),
    }
}

// The last field, of one byte, and the end of the line.
pub fn put_last(mark: u8, out: &mut [u8], at: usize) -> usize
    requires { at + 3 ≤ length out.old }
    ensures put { Put out.old at (tabbed ((mark ∷ []) ∷ [])) result out.new }
    ensures upper_bound { result ≤ at + 3 }
{
    let from = put_text::put_byte(b'\t', out, at);
    let end = put_text::put_byte(mark, out, from);
    put_text::put_byte(b'\n', out, end)
}
