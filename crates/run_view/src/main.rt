// Runs each method of the view on document 01's record, in reverse, unmapped and at the ends of the range, on short and damaged records, and on records with a placeholder. A record has six lines:
// its fields; the part that holds its ops, and the number beside it; the part that holds its true list; lengths and ends; its text, in 12 places; and its ops clipped at the start by 25, at the end by 5, by 0 and by 26, in 3 places.
#![tactic(auto)]

mod record;
mod shown;

use fields::Part;
use shown::{Bytes, ClippedEnd, ClippedStart, FivePrime, Lengths, Place, Told};
use std::fmt;
use view::RawRecordView;

// Document 01's record up to its ops, with other numbers in the fields that it does not name: 5S20M2D5M, name `r`, l_seq 30.
fn example(pos: u32, flags: u32) -> [u8; 96] {
    let placed = record::with_word(record::with_word([0u8; 96], 0, 3), 4, pos);
    let named = record::with_word(placed, 8, 2 + 65536 * 4681);
    let flagged = record::with_word(named, 12, 4 + 65536 * (flags % 65536));
    let paired = record::with_word(record::with_word(flagged, 16, 30), 20, 4294967295);
    let mated = record::with_word(record::with_word(paired, 24, 200), 28, 4294967146);
    let begun = record::with_word(record::with_word(mated, 32, 114), 34, 84);
    record::with_word(
        record::with_word(record::with_word(begun, 38, 320), 42, 34),
        46,
        80,
    )
}

fn numbers<W: fmt::Write>(to: &mut W, view: RawRecordView) -> fmt::Result {
    write!(
        to,
        "  ref_id {}, pos {}",
        Told(view.ref_id()),
        Told(view.pos())
    )?;
    write!(
        to,
        ", l_read_name {}, bin {}",
        Told(view.l_read_name()),
        Told(view.bin())
    )?;
    write!(
        to,
        ", n_cigar_op {}, flags {}",
        Told(view.n_cigar_op()),
        Told(view.flags())
    )?;
    write!(
        to,
        ", l_seq {}, mate_ref_id {}",
        Told(view.l_seq()),
        Told(view.mate_ref_id())
    )?;
    write!(to, ", mate_pos {}", Told(view.mate_pos()))?;
    writeln!(to, ", template_length {}", Told(view.template_length()))
}

fn part<W: fmt::Write>(to: &mut W, name: &str, shown: Part) -> fmt::Result {
    let Part { refusal, part } = shown;
    writeln!(to, "{name}{refusal}, bytes {}:{}", part.len(), Bytes(part))
}

fn sums<W: fmt::Write>(to: &mut W, view: RawRecordView) -> fmt::Result {
    write!(to, "  reference {}", Told(view.reference_length()))?;
    write!(to, ", query {}", Told(view.query_length()))?;
    write!(to, ", lengths {}", Told(view.cigar_lengths().map(Lengths)))?;
    write!(
        to,
        "; start {}",
        Told(view.alignment_start_1based().map(Place))
    )?;
    write!(to, ", end {}", Told(view.alignment_end_1based().map(Place)))?;
    writeln!(
        to,
        ", unclipped {}",
        Told(view.unclipped_5prime_1based().map(FivePrime))
    )
}

fn text<W: fmt::Write>(to: &mut W, view: RawRecordView) -> fmt::Result {
    let mut out = [b'.'; 12];
    write!(to, "  text {} ", Told(view.cigar_to_string(&mut out)))?;
    to.write_str(str::from_utf8(&out).unwrap_or(""))?;
    writeln!(to)
}

fn clipped_start<W: fmt::Write>(to: &mut W, view: RawRecordView, amount: u64) -> fmt::Result {
    let mut out = [112u32; 3];
    let answer = view.clip_cigar_start(amount, &mut out);
    write!(to, "  clipped {}", ClippedStart(answer, &out))
}

fn clipped_end<W: fmt::Write>(to: &mut W, view: RawRecordView, amount: u64) -> fmt::Result {
    let mut out = [112u32; 3];
    let answer = view.clip_cigar_end(amount, &mut out);
    write!(to, "; {}", ClippedEnd(answer, &out))
}

fn show<W: fmt::Write>(to: &mut W, name: &str, bam: &[u8]) -> fmt::Result {
    let view = RawRecordView::new(bam);
    writeln!(to, "{name}, bytes {}", view.as_bytes().len())?;
    numbers(to, view)?;
    part(to, "  part, refusal ", view.cigar_raw_bytes())?;
    part(to, "  true part, refusal ", view.true_cigar_raw_bytes())?;
    sums(to, view)?;
    text(to, view)?;
    clipped_start(to, view, 25)?;
    clipped_end(to, view, 5)?;
    clipped_end(to, view, 0)?;
    clipped_end(to, view, 26)?;
    writeln!(to)
}

fn whole<W: fmt::Write>(to: &mut W) -> fmt::Result {
    let forward = example(99, 0);
    show(to, "5S20M2D5M at 99", record::cut(&forward, 95))?;
    let reverse = example(99, fields::REVERSE);
    show(to, "5S20M2D5M at 99, reverse", record::cut(&reverse, 95))?;
    let unmapped = example(99, fields::UNMAPPED);
    show(to, "5S20M2D5M at 99, unmapped", record::cut(&unmapped, 95))
}

fn short<W: fmt::Write>(to: &mut W) -> fmt::Result {
    let r = example(99, 0);
    show(to, "no record", &[])?;
    show(to, "cut in its fields", record::cut(&r, 31))?;
    show(to, "cut after its fields", record::cut(&r, 32))?;
    show(to, "cut in its last op", record::cut(&r, 49))?;
    show(to, "cut after its ops", record::cut(&r, 50))
}

fn ends_of_the_range<W: fmt::Write>(to: &mut W) -> fmt::Result {
    let last = example(2147483647, 0);
    show(to, "5S20M2D5M at 2147483647", record::cut(&last, 95))?;
    let none = example(4294967295, 0);
    show(to, "5S20M2D5M at -1", record::cut(&none, 95))
}

// An op of code 9, one of the largest length, and nine ops of 2^31 bases in all.
fn odd_ops<W: fmt::Write>(to: &mut W) -> fmt::Result {
    let unnamed = record::with_word(example(99, 0), 46, 89);
    show(to, "5S20M2D5?", record::cut(&unnamed, 95))?;
    let long = record::with_word(example(99, 0), 38, 4294967280);
    show(to, "5S268435455M2D5M", record::cut(&long, 95))?;
    let over = record::with_run(record::new(99, 0, 9), 0, 0);
    show(to, "8 of 268435455M and 8M", record::cut(&over, 72))
}

// A placeholder, 3S10N for three bases, and behind its bases and qualities a CG of 1M2S, whose type is I, or i (105).
fn placeholder(numbers: u32) -> [u8; 96] {
    let sized = record::with_word(record::new(99, 0, 2), 16, 3);
    let held = record::with_word(record::with_word(sized, 36, 52), 40, 163);
    let tagged = record::with_word(held, 49, 4343619 + 16777216 * (numbers % 256));
    let counted = record::with_word(tagged, 53, 2);
    record::with_word(record::with_word(counted, 57, 16), 61, 36)
}

fn long_lists<W: fmt::Write>(to: &mut W) -> fmt::Result {
    let r = placeholder(73);
    show(to, "3S10N, and 1M2S in CG", record::cut(&r, 65))?;
    show(to, "3S10N, and no tag", record::cut(&r, 49))?;
    show(to, "3S10N, and CG cut in its last op", record::cut(&r, 64))?;
    let other = placeholder(105);
    show(to, "3S10N, and CG of type i", record::cut(&other, 65))
}

fn all<W: fmt::Write>(to: &mut W) -> fmt::Result {
    whole(to)?;
    short(to)?;
    ends_of_the_range(to)?;
    odd_ops(to)?;
    long_lists(to)
}

// Standard output, to which each piece of what is printed is written by itself. One that can't be written is left out, and the next is tried all the same.
#[derive(Drop)]
struct Pieces<'a, P: Print> {
    rt: &'a P,
}

impl<P: Print> fmt::Write for Pieces<'_, P> {
    // A minus sign goes out by itself.
    fn write_str(&mut self, s: &str) -> fmt::Result {
        let piece = s.as_bytes();
        if piece.len() < 2 || piece[0] != b'-' {
            let _ = self.rt.write_all(piece);
            return Ok(());
        }
        let _ = self.rt.write_all(&piece[..1]);
        let _ = self.rt.write_all(&piece[1..]);
        Ok(())
    }
}

fn main(rt: HostRuntime) {
    let _ = all(&mut Pieces { rt: &rt });
}
