// Standard input is an uncompressed BAM stream; its records are written as the stream that `report` takes, behind the mark CGR. Where the records begin is said by the crate `bam_header`, and
// `bam_rules` what the turns of reads and writes come to: this takes turn after turn. What is wrong is said in words on standard error, and a head that is damaged leaves standard output empty.
#![tactic(auto)]

ghost use Rattle.std.specs.Prelude.{IfSome, IfOk, ◌≡◌, true, false, take};
ghost use Rattle.blocks.specs.Fill.{First};
ghost use Rattle.blocks.specs.Tied.{Tied};
ghost use Rattle.blocks.specs.declared.Source.TheVariants.{Ended};
ghost use Rattle.bam_header.specs.Header.{is_bam, head_of};
ghost use Rattle.bam_header.specs.Converted.{converted};
ghost use Rattle.std.specs.Io.KnownBytes.{Appends, IsAtEnd};
ghost use Rattle.bam_rules.specs.Run.{BamCame};
ghost use Rattle.bam_to_cgr.specs.Words.{word_of, lack_of, end_of};
ghost use Rattle.bam_to_cgr.specs.declared.Word.TheVariants.{NotBam};

use bam_rules::BamState;
use blocks::{Read, Source};
use std::io;

// No stream takes so many turns; each reads at least a byte.
const MOST_TURNS: u64 = 140737488355328;

// What is said at the end on standard error.
#[derive(Clone, Copy)]
enum Word {
    Nothing,
    NotBam,
    HeadCut,
    Unread,
    Unwritten,
}

// A stream that begins with the magic, of which the first bytes are at hand: the state at its end, or the write that failed.
fn convert<R: io::Read, W: io::Write>(
    input: &mut R,
    to: &mut W,
    first: Read,
    block: &mut [u8; 65536],
) -> io::Result<BamState>
    requires { First 4 first block.old × (is_bam (take first.have block.old) ≡ true) }
    ensures came { IfOk result (λ s. BamCame s block.new) }
    ensures tied { IfOk result (λ s. (c : BamCame s block.new)
        × Tied (take first.have block.old) (R.remaining input.old) (R.remaining input.new) (W.contents to.old) (W.contents to.new) c.read c.written) }
    ensures end { IfOk result (λ s. s.source ≡ Ended → IsAtEnd (R.remaining input.new)) }
{
    let mut s = BamState {
        place: bam_header::start(),
        have: first.have,
        used: 4,
        source: Source::Open,
        marked: false,
    };
    for _ in 0..MOST_TURNS {
        bam_turns::turn(input, &mut s, block);
        bam_turns::write_due(to, &mut s, block)?;
        if s.source.is_over() {
            return Ok(s);
        }
    }
    Ok(s)
}

// The word for a read that failed, or else for what the stream lacks.
fn read_word(source: Source, lack: Word) -> Word
    ensures { result ≡ word_of source lack }
{
    if source.is_failed() {
        return Word::Unread;
    }
    lack
}

// What a stream with the magic lacks at its end.
fn lack(s: BamState) -> Word
    ensures { result ≡ lack_of s }
{
    if bam_header::begun(s.place) {
        return Word::Nothing;
    }
    Word::HeadCut
}

// The word for the end of a stream with the magic: for a write that failed, or else for a read, or else for what it lacks.
fn end_word(end: &io::Result<BamState>) -> Word
    ensures { result ≡ end_of end.now }
{
    match end {
        Ok(s) => read_word(s.source, lack(*s)),
        Err(_) => Word::Unwritten,
    }
}

fn say<W: io::Write>(to: &mut W, w: Word) {
    let text: &[u8] = match w {
        Word::Nothing => return,
        Word::NotBam => b"bam_to_cgr: not a BAM stream\n",
        Word::HeadCut => b"bam_to_cgr: the head of the BAM stream is cut short\n",
        Word::Unread => b"bam_to_cgr: the input can't be read to its end\n",
        Word::Unwritten => b"bam_to_cgr: the output can't be written\n",
    };
    let _ = to.write_all(text);
}

// Another stream: nothing is written of it.
fn refuse<W: io::Write>(to: &mut W, first: Read, part: &[u8], w: Word)
    requires part_value { is_bam part.now ≡ false }
    requires w_value { w ≡ word_of first.source NotBam }
{
    say(to, w)
}

// The end of a stream with the magic.
fn finish<W: io::Write>(to: &mut W, end: &io::Result<BamState>, w: Word)
    requires { w ≡ end_of end.now }
{
    say(to, w)
}

// Whether a stream with the magic was read to its end.
fn is_whole(s: BamState) -> bool
    ensures { result ≡ true → s.source ≡ Ended }
{
    matches!(s.source, Source::Ended)
}

// A run: the stream is read to its end, and what it converts to is written. Whether that went well; what did not is said in words.
fn run<R: io::Read, W: io::Write, E: io::Write>(input: &mut R, to: &mut W, errors: &mut E) -> bool
    ensures { result ≡ true → IfSome (R.remaining input.old)
        (λ stream. Appends (W.contents to.old) (W.contents to.new) (converted (head_of stream))) }
{
    let mut block = blocks::large_buffer();
    let first = blocks::first(input, &mut block, 4);
    let part = &block[..first.have];
    if !bam_header::magic(part) {
        refuse(errors, first, part, read_word(first.source, Word::NotBam));
        return !first.source.is_failed();
    }
    let end = convert(input, to, first, &mut block);
    finish(errors, &end, end_word(&end));
    match end {
        Ok(s) => is_whole(s),
        Err(_) => false,
    }
}

fn main(rt: HostRuntime) {
    run(&mut rt.stdin(), &mut rt.stdout(), &mut rt.stderr());
}
