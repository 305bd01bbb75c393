// What a turn of the program `bam_to_cgr` writes: the mark, and what is left behind it. An inner crate of that program.
#![tactic(auto)]

ghost use Rattle.std.specs.Prelude.{◌≡◌, true, ◌≤◌, length, OnOk};
ghost use Rattle.bam_header.specs.Inner.{is_begun};
ghost use Rattle.bam_header.specs.Converted.{cgr_mark};
ghost use Rattle.bam_rules.specs.Run.{behind_of, left};
ghost use Rattle.std.specs.Io.KnownBytes.{Appends};
ghost use Rattle.bam_writes.specs.InnerPart.{part_of};

use bam_rules::BamState;
use std::io;

// The mark and version that `report` looks for.
pub fn mark() -> [u8; 5]
    ensures { result ≡ cgr_mark }
{
    *b"CGR\x01\x00"
}

// Hands over what is due first, the mark or what is left behind it; the state behind it comes from here alone.
pub fn write<W: io::Write>(
    to: &mut W,
    s: &mut BamState,
    block: &[u8],
    part: &[u8],
) -> io::Result<()>
    requires place_value { is_begun s.old.place ≡ true }
    requires part_value { part.now ≡ part_of s.old block.now }
    ensures state { s.new ≡ behind_of s.old }
    ensures bytes { OnOk result (Appends (W.contents to.old) (W.contents to.new) (part_of s.old block.now)) }
{
    if s.marked {
        s.used = s.have;
    }
    s.marked = true;
    to.write_all(part)
}

// What is left, behind the mark.
pub fn write_left<W: io::Write>(to: &mut W, s: &mut BamState, block: &[u8]) -> io::Result<()>
    requires place_value { is_begun s.old.place ≡ true }
    requires marked_value { s.old.marked ≡ true }
    requires used_le_have { (s.old.used ≤ s.old.have) × (s.old.have ≤ length block.now) }
    ensures state { s.new ≡ behind_of s.old }
    ensures bytes { OnOk result (Appends (W.contents to.old) (W.contents to.new) (left s.old block.now)) }
{
    let (used, have) = (s.used, s.have);
    write(to, s, block, &block[used..have])
}
