// Document 01's program: standard input is a stream of records, and a line is written for each. What is written is said by the crates `report_stream` and `report_line`, and `report_rules` says what
// the turns of reads and writes come to: this takes turn after turn. A write that fails ends the program, and a read that fails leaves the stream cut short; both are said on standard error.
#![tactic(auto)]

ghost use Rattle.std.specs.Prelude.{◌≡◌, true, false, take, IfOk, OnOk};
ghost use Rattle.blocks.specs.Fill.{is_failed, First};
ghost use Rattle.blocks.specs.Tied.{Tied};
ghost use Rattle.blocks.specs.declared.Source.TheVariants.{Ended};
ghost use Rattle.stream_rules.specs.Stream.{is_marked, bad_input};
ghost use Rattle.report_rules.specs.Run.{begun, Came, Printed};
ghost use Rattle.std.specs.Io.KnownBytes.{Appends, IsAtEnd};

use blocks::{Read, Source};
use report_rules::State;
use std::io;

// No stream takes so many turns; each reads a block or writes one.
const MOST_TURNS: u64 = 140737488355328;

// The state before the first turn, with so many bytes at hand behind the mark.
fn start(have: usize) -> State
    ensures { result ≡ begun have }
{
    State {
        have,
        source: Source::Open,
        records: 0,
        put: 0,
        going: true,
    }
}

// A stream that begins with its mark, of which the first bytes are at hand: the state at its end, or the write that failed. `out` is room for a block of output, one line more, and the last lines.
fn report<R: io::Read, W: io::Write>(
    input: &mut R,
    to: &mut W,
    first: Read,
    block: &mut [u8; 65536],
    out: &mut [u8; 131328],
) -> io::Result<State>
    requires { First 5 first block.old × (is_marked (take first.have block.old) ≡ true) }
    ensures came { IfOk result (λ s. Came s block.new out.new) }
    ensures tied { IfOk result (λ s. (c : Came s block.new out.new)
        × Tied (take first.have block.old) (R.remaining input.old) (R.remaining input.new) (W.contents to.old) (W.contents to.new) c.read c.written) }
    ensures end { IfOk result (λ s. s.source ≡ Ended → IsAtEnd (R.remaining input.new)) }
{
    let have = first.have;
    blocks::shift(block, 5, have);
    let mut s = start(have - 5);
    for _ in 0..MOST_TURNS {
        report_turns::refill(input, &mut s, block);
        report_turns::turn(&mut s, block, out);
        report_writes::write_due(to, &mut s, out)?;
        if !s.going {
            return Ok(s);
        }
    }
    Ok(s)
}

// A stream with another mark.
fn refuse<W: io::Write>(to: &mut W, first: &[u8]) -> io::Result<()>
    requires { is_marked first.now ≡ false }
    ensures { OnOk result (Appends (W.contents to.old) (W.contents to.new) bad_input) }
{
    to.write_all(b"bad input\n")
}

// Says that a write failed.
fn tell_unwritten<W: io::Write>(to: &mut W) {
    let _ = to.write_all(b"report: the output can't be written\n");
}

// Says where a read failed.
fn tell_unread<W: io::Write>(to: &mut W, source: Source) {
    if source.is_failed() {
        let _ = to.write_all(b"report: the input can't be read to its end\n");
    }
}

// Whether a stream that begins with its mark was read as far as its lines go.
fn is_whole(s: State) -> bool
    ensures { result ≡ true → (is_failed s.source ≡ false) × (s.going ≡ false) }
{
    !s.source.is_failed() && !s.going
}

// A run: of the stream that the input has, what is printed is written. Whether that went well; what did not is said in words.
fn run<R: io::Read, W: io::Write, E: io::Write>(input: &mut R, to: &mut W, errors: &mut E) -> bool
    ensures { result ≡ true → Printed (R.remaining input.old) (W.contents to.old) (W.contents to.new) }
{
    let mut block = blocks::large_buffer();
    let first = blocks::first(input, &mut block, 5);
    let have = first.have;
    if !report_stream::marked(&block[..have]) {
        return match refuse(to, &block[..have]) {
            Ok(()) => {
                tell_unread(errors, first.source);
                !first.source.is_failed()
            }
            Err(_) => {
                tell_unwritten(errors);
                false
            }
        };
    }
    match report(input, to, first, &mut block, &mut [0; 131328]) {
        Ok(s) => {
            tell_unread(errors, s.source);
            is_whole(s)
        }
        Err(_) => {
            tell_unwritten(errors);
            false
        }
    }
}

fn main(rt: HostRuntime) {
    run(&mut rt.stdin(), &mut rt.stdout(), &mut rt.stderr());
}
