// Pair tests and overhang.
ghost use Rattle.std.specs.Prelude.{◌≡◌};
ghost use Rattle.answers.specs.Settled.{Settled};
ghost use Rattle.answers.specs.Answers.{tell_count, tell_flag};
ghost use Rattle.overhang_rules.specs.Overhang.{bases_extending};
ghost use Rattle.pairs_rules.specs.Pairs.{opposite_pair, fr_pair, primary_fr_pair};
ghost use Rattle.overlap_rules.specs.Overlap.{past_mate_cigar, past_mate_record, past_mate_text, tell_overhang};
ghost use Rattle.border.specs.Border.{count_of, flag_of, two_of, across, flagged};

use answers::Pos1;
use border::{ToldCount, ToldFlag, ToldTwo};

#[unsafe(no_mangle)]
pub extern "C" fn cigar_is_mapped_opposite_strand_pair_raw(rec: &[u8]) -> ToldFlag
    ensures { result ≡ flag_of (tell_flag (opposite_pair rec.now)) }
{
    pairs::is_mapped_opposite_strand_pair_raw(rec).into()
}

#[unsafe(no_mangle)]
pub extern "C" fn cigar_is_fr_pair_raw(rec: &[u8]) -> ToldFlag
    ensures { result ≡ flag_of (tell_flag (fr_pair rec.now)) }
{
    pairs::is_fr_pair_raw(rec).into()
}

#[unsafe(no_mangle)]
pub extern "C" fn cigar_is_primary_fr_pair_raw(rec: &[u8], mate: &[u8]) -> ToldFlag
    ensures { result ≡ flag_of (tell_flag (primary_fr_pair rec.now mate.now)) }
{
    pairs::is_primary_fr_pair_raw(rec, mate).into()
}

#[unsafe(no_mangle)]
pub extern "C" fn cigar_bases_extending_past_mate_ops(
    reverse: u8,
    position: i32,
    ops: &[u32],
    mate_position: i32,
    mate_ops: &[u32],
) -> ToldCount
    ensures { result ≡ count_of (tell_count (bases_extending (flagged reverse) position ops.now mate_position mate_ops.now)) }
{
    overhang::bases_extending_past_mate_ops(
        border::flag(reverse),
        Pos1(position),
        ops,
        Pos1(mate_position),
        mate_ops,
    )
    .into()
}

#[unsafe(no_mangle)]
pub extern "C" fn cigar_num_bases_extending_past_mate_cigar_raw(
    rec: &[u8],
    mate_ops: &[u32],
) -> ToldCount
    ensures { result ≡ count_of (tell_count (past_mate_cigar rec.now mate_ops.now)) }
{
    overlap::num_bases_extending_past_mate_cigar_raw(rec, mate_ops).into()
}

#[unsafe(no_mangle)]
pub extern "C" fn cigar_num_bases_extending_past_mate_vs_mate_raw(
    rec: &[u8],
    mate: &[u8],
) -> ToldCount
    ensures { result ≡ count_of (tell_count (past_mate_record rec.now mate.now)) }
{
    overlap::num_bases_extending_past_mate_vs_mate_raw(rec, mate).into()
}

#[unsafe(no_mangle)]
pub extern "C" fn cigar_num_bases_extending_past_mate_text_raw(
    rec: &[u8],
    text: &[u8],
    out: &mut [u32],
) -> ToldTwo
    ensures { Settled (across two_of tell_overhang (past_mate_text rec.now text.now out.old)) result out.new }
{
    border_reads::told_overhang(overlap_text::num_bases_extending_past_mate_text_raw(
        rec, text, out,
    ))
}
