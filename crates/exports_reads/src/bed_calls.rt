// Blocks.
ghost use Rattle.answers.specs.Settled.{SettledTwo};
ghost use Rattle.bed_rules.specs.Bed.{bed_blocks, tell_bed};
ghost use Rattle.border.specs.Border.{blocks_of, across_two};

use border::ToldBlocks;

#[unsafe(no_mangle)]
pub extern "C" fn cigar_bed_blocks(
    start: i32,
    ops: &[u32],
    sizes: &mut [u32],
    starts: &mut [u32],
) -> ToldBlocks
    ensures { SettledTwo (across_two blocks_of tell_bed (bed_blocks start ops.now sizes.old starts.old)) result sizes.new starts.new }
{
    border_reads::told_blocks(bed::bed_blocks(start, ops, sizes, starts))
}
