// The turns of the program `report`, each a read and lines that are put; `report_writes` writes them, and `report_rules` says what they come to. An inner crate of that program.
#![tactic(auto)]

ghost use Rattle.std.specs.Prelude.{◌≡◌, ◌+◌, ◌≤◌, ◌<◌, length};
ghost use Rattle.stream_rules.specs.Stream.{last_word};
ghost use Rattle.report_rules.specs.Run.{Refilled, read_behind, Turned};
ghost use Rattle.blocks.specs.declared.Source.TheVariants.{Ended};
ghost use Rattle.std.specs.Io.KnownBytes.{Consumes, IsAtEnd};

use report_rules::State;
use std::io;
use stream_rules::NextFrame;

// The most bytes that a record and its size take: with so many at hand none has to be read.
const ENOUGH: usize = 32772;

// Reads behind the bytes at hand, unless a whole record is there or nothing is left.
// A slice and no array of 65,536 bytes, here and below: any memory of that length may be lent.
pub fn refill<R: io::Read>(input: &mut R, s: &mut State, block: &mut [u8])
    requires value { 65536 ≡ length block.old }
    requires have_bound { s.old.have ≤ 65536 }
    ensures refilled { Refilled s.old block.old s.new block.new }
    ensures have_bound_2 { s.new.have ≤ 65536 }
    ensures bytes { Consumes (R.remaining input.old) (R.remaining input.new) (read_behind s.old s.new block.new) }
    ensures end { (s.old.source ≡ Ended → IsAtEnd (R.remaining input.old)) → s.new.source ≡ Ended → IsAtEnd (R.remaining input.new) }
{
    if ENOUGH <= s.have {
        return;
    }
    if s.source.is_over() {
        return;
    }
    let r = blocks::fill(input, block, s.have);
    s.have = r.have;
    s.source = r.source;
}

// What a stream ends with: the end of what was read is a cut where a read failed.
fn last_word(failed: bool, next: NextFrame) -> NextFrame
    ensures { result ≡ last_word failed next }
{
    match next {
        NextFrame::End if failed => NextFrame::CutShort,
        _ => next,
    }
}

// Puts the lines of the records at hand, and the last lines where reading ends; else what is left moves to the front of the block.
pub fn turn(s: &mut State, block: &mut [u8], out: &mut [u8])
    requires value { 65536 ≡ length block.old }
    requires value_2 { 131328 ≡ length out.old }
    requires have_bound { (s.old.have ≤ 65536) × (s.old.put ≤ 65280) × (s.old.records < 9223372036854775808) }
    ensures turned { Turned s.old block.old out.old s.new block.new out.new }
    ensures have_le_have { (s.new.have ≤ s.old.have) × (s.new.put ≤ 131328) × (s.new.records ≤ s.old.records + 65536) }
{
    let whole = s.source.is_over();
    let b = report_stream::lines_at_hand(&block[..s.have], whole, s.records, out, s.put);
    s.records = b.records;
    s.going = report_stream::goes_on(b.next);
    if !s.going {
        let word = last_word(s.source.is_failed(), b.next);
        s.put = report_stream::close(word, b.records, out, b.put);
        return;
    }
    blocks::shift(block, b.used, s.have);
    s.have -= b.used;
    s.put = b.put;
}
