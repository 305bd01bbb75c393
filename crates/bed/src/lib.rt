// Document 02, item 5: the blocks of a spliced alignment, as BED12 has them. A measuring pass decides every refusal, and then the blocks are written.
#![tactic(auto)]

ghost use Rattle.std.specs.Prelude.{◌≡◌, false, cond, ◌≤◌, ◌<◌, ltb, length, set};
ghost use Rattle.lists.specs.Lists.{sum_of, splice};
ghost use Rattle.sam.specs.Op.{ref_len};
ghost use Rattle.answers.specs.Settled.{SettledTwo};
ghost use Rattle.bed_rules.specs.Blocks.{blocks};
ghost use Rattle.bed_rules.specs.Bed.{sizes_of, starts_of, unfit, bed_blocks};

use answers::{Answer, Refusal};
use bed_rules::{Bed, Measured};
use bed_walk::Walk;

// Writes the stretch as a block, where n blocks are more than were passed before it.
fn put(walk: Walk, n: usize, sizes: &mut [u32], starts: &mut [u32])
    requires n_in_bounds { (n ≤ length sizes.old) × (n ≤ length starts.old) }
    requires start_bound { (walk.start < 4294967296) × (walk.size < 4294967296) }
    ensures sizes_after { sizes.new ≡ cond (ltb walk.n n) (set sizes.old walk.n walk.size) sizes.old }
    ensures starts_after { starts.new ≡ cond (ltb walk.n n) (set starts.old walk.n walk.start) starts.old }
{
    let at = walk.n;
    if n <= at {
        return;
    }
    sizes[at] = walk.size as u32;
    starts[at] = walk.start as u32;
}

// Writes the blocks of a list that was measured.
fn write(ops: &[u32], sizes: &mut [u32], starts: &mut [u32])
    requires ops_len_bound { (length ops.now ≤ 65535) × (unfit ops.now ≡ false) × (sum_of ref_len ops.now ≤ 2147483647) }
    requires ops_in_bounds { (length (blocks ops.now) ≤ length sizes.old) × (length (blocks ops.now) ≤ length starts.old) }
    ensures sizes_after { sizes.new ≡ splice sizes.old 0 (sizes_of (blocks ops.now)) }
    ensures starts_after { starts.new ≡ splice starts.old 0 (starts_of (blocks ops.now)) }
{
    let mut walk = Walk {
        n: 0,
        start: 0,
        size: 0,
    };
    for op in ops {
        let next = bed_walk::pass(walk, *op);
        put(walk, next.n, sizes, starts);
        walk = next;
    }
    put(walk, walk.n + 1, sizes, starts);
}

// The blocks of an alignment, by its start, counted from 0, and its ops: their sizes, and where they start, counted from the alignment's start. Refusals 3, 14, 4, 6.
pub fn bed_blocks(start: i32, ops: &[u32], sizes: &mut [u32], starts: &mut [u32]) -> Answer<Bed>
    ensures { SettledTwo (bed_blocks start ops.now sizes.old starts.old) result sizes.new starts.new }
{
    if oplist::MOST_OPS < ops.len() {
        return Err(Refusal::TooManyOps);
    }
    if start < 0 {
        return Err(Refusal::NoBlocks);
    }
    let Measured { blocks: n, refs } = bed_walk::measure(ops).ok_or(Refusal::NoBlocks)?;
    let at = signed::natural_of(start);
    let end = at + refs;
    if 2147483647 < end {
        return Err(Refusal::Overflow);
    }
    if sizes.len() < n {
        return Err(Refusal::NoRoom);
    }
    if starts.len() < n {
        return Err(Refusal::NoRoom);
    }
    write(ops, sizes, starts);
    Ok(Bed {
        chrom_start: at as u32,
        chrom_end: end as u32,
        block_count: n as u32,
    })
}
