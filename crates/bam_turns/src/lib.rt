// The turns of the program `bam_to_cgr`, each a read and what is written behind it; bam_rules/specs/Run.antt says what they come to. An inner crate of that program.
#![tactic(auto)]

ghost use Rattle.std.specs.Prelude.{◌≡◌, ◌+◌, ◌≤◌, ◌<◌, length, OnOk};
ghost use Rattle.bam_rules.specs.Run.{BamTurn, read_in, due_bytes, behind_all};
ghost use Rattle.blocks.specs.declared.Source.TheVariants.{Ended};
ghost use Rattle.std.specs.Io.KnownBytes.{Consumes, Appends, IsAtEnd};

use bam_rules::BamState;
use std::io;

// Reads behind the bytes that are left, and goes as far in the head as they go; where the records begin none of them is used.
// A slice and no array of 65,536 bytes: any memory of that length may be lent.
pub fn turn<R: io::Read>(input: &mut R, s: &mut BamState, block: &mut [u8])
    requires value { 65536 ≡ length block.old }
    requires used_le_have { (s.old.used ≤ s.old.have) × (s.old.have ≤ 65536) × (s.old.have < s.old.used + 65536) }
    ensures used_le_have_2 { (s.new.used ≤ s.new.have) × (s.new.have ≤ 65536) }
    ensures bam_turn { BamTurn s.old block.old s.new block.new }
    ensures bytes { Consumes (R.remaining input.old) (R.remaining input.new) (read_in s.old s.new block.new) }
    ensures end { s.new.source ≡ Ended → IsAtEnd (R.remaining input.new) }
{
    blocks::shift(block, s.used, s.have);
    let read = blocks::fill(input, block, s.have - s.used);
    let step = bam_header::read_on(&block[..read.have], s.place);
    *s = BamState {
        place: step.place,
        have: read.have,
        used: step.used,
        source: read.source,
        ..*s
    };
}

// All that is due: nothing in the head; the mark, once, and what is left.
pub fn write_due<W: io::Write>(to: &mut W, s: &mut BamState, block: &[u8]) -> io::Result<()>
    requires { (s.old.used ≤ s.old.have) × (s.old.have ≤ length block.now) }
    ensures state { OnOk result (s.new ≡ behind_all s.old) }
    ensures bytes { OnOk result (Appends (W.contents to.old) (W.contents to.new) (due_bytes s.old block.now)) }
{
    if !bam_header::begun(s.place) {
        return Ok(());
    }
    if !s.marked {
        bam_writes::write(to, s, block, &bam_writes::mark())?;
    }
    bam_writes::write_left(to, s, block)
}
