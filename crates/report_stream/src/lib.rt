// Document 01, section Program: the frames of a stream, and the lines of the records that are at hand. An inner crate of the program.
#![tactic(auto)]

ghost use Rattle.std.specs.Prelude.{◌≡◌, ◌+◌, ◌≤◌, length};
ghost use Rattle.put_text.specs.Puts.{Put};
ghost use Rattle.stream_rules.specs.Stream.{is_marked, next_in, so_far, closing, closing_word};
ghost use Rattle.stream_rules.specs.Inner.{Went, goes_on};

use stream_rules::{Block, NextFrame};

// The most bytes of a record.
pub const MOST_BYTES: u32 = 32768;

// The most bytes that output holds where one more line may be put behind them.
pub const FULL: usize = 65280;

// Whether a stream begins with its mark and version.
pub fn marked(s: &[u8]) -> bool
    ensures { result ≡ is_marked s.now }
{
    s.starts_with(b"CGR\x01\x00")
}

// What comes next where all that is left is at hand.
#[tactic(auto, unfolding(stream_rules::specs::Stream::next_in))]
fn next_in(s: &[u8]) -> NextFrame
    ensures { result ≡ next_in s.now }
{
    if s.is_empty() {
        return NextFrame::End;
    }
    if s.len() < 4 {
        return NextFrame::CutShort;
    }
    let size = little_endian::u32_at(s, 0);
    if MOST_BYTES < size {
        return NextFrame::TooLong;
    }
    let n = size as usize;
    if s.len() < 4 + n {
        return NextFrame::CutShort;
    }
    NextFrame::Record(n)
}

fn so_far(whole: bool, n: NextFrame) -> NextFrame
    ensures { result ≡ so_far whole n }
{
    if whole {
        return n;
    }
    match n {
        NextFrame::CutShort | NextFrame::End => NextFrame::More,
        _ => n,
    }
}

// What comes next, of the bytes at hand; `whole` if they are all that is left.
pub fn comes_next(s: &[u8], whole: bool) -> NextFrame
    ensures { result ≡ so_far whole (next_in s.now) }
{
    so_far(whole, next_in(s))
}

// The lines of the records at hand, from place `at` of out on, while there is room for one more.
pub fn lines_at_hand(s: &[u8], whole: bool, records: u64, out: &mut [u8], at: usize) -> Block
    requires s_bound { records + length s.now ≤ 18446744073709551615 }
    requires in_bounds { 131072 ≤ length out.old }
    requires at_bound { at ≤ 65280 }
    ensures { Went s.now whole records out.old at result out.new }
{
    let mut used: usize = 0;
    let mut n = records;
    let mut put = at;
    while put <= FULL {
        let next = comes_next(&s[used..], whole);
        let NextFrame::Record(size) = next else {
            return Block {
                used,
                records: n,
                put,
                next,
            };
        };
        let end = used + 4 + size;
        n += 1;
        put = report_line::line(n, &s[used + 4..end], out, put);
        used = end;
    }
    Block {
        used,
        records: n,
        put,
        next: comes_next(&s[used..], whole),
    }
}

// Whether reading goes on.
pub fn goes_on(next: NextFrame) -> bool
    ensures { result ≡ goes_on next }
{
    matches!(next, NextFrame::Record(_) | NextFrame::More)
}

// The word for a stream that could not be read to its end.
fn put_word(next: NextFrame, out: &mut [u8], at: usize) -> usize
    requires { at + 10 ≤ length out.old }
    ensures put { Put out.old at (closing_word next) result out.new }
    ensures upper_bound { result ≤ at + 10 }
{
    match next {
        NextFrame::TooLong => put_text::put_bytes(b"too long\n", out, at),
        NextFrame::CutShort => put_text::put_bytes(b"cut short\n", out, at),
        NextFrame::End | NextFrame::Record(_) | NextFrame::More => at,
    }
}

// The last lines.
pub fn close(next: NextFrame, records: u64, out: &mut [u8], at: usize) -> usize
    requires { at + 39 ≤ length out.old }
    ensures put { Put out.old at (closing next records) result out.new }
    ensures upper_bound { result ≤ at + 39 }
{
    let from = put_word(next, out, at);
    let behind = put_text::put_bytes(b"records ", out, from);
    let end = put_text::put_number(records, out, behind);
    put_text::put_byte(b'\n', out, end)
}
