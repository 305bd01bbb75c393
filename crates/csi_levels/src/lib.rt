// Document 02, item 11, CSI's levels: the bin of a region and all bins that may overlap it, one level up with each call. An inner crate of `csi`.
#![tactic(auto)]

ghost use Rattle.std.specs.Prelude.{◌≡◌, ◌+◌, ◌-◌, ◌*◌, ◌/◌, ◌^◌, ◌<◌, ◌≤◌, length};
ghost use Rattle.lists.specs.Lists.{splice};
ghost use Rattle.sam.specs.Bins.{first_of, bin_up};
ghost use Rattle.csi_rules.specs.Csi.{numbers_from, bins_up};
ghost use Rattle.csi_levels.specs.InnerLevels.{Sound};

// The first number of level 8, (8^8 - 1) / 7: a 1 for each level above it, three bits apart.
const FIRST_OF_EIGHT: u32 = 2396745;

// A level's first number has as many of them as there are levels above it.
fn first_of(level: u32) -> u32
    requires { level ≤ 8 }
    ensures { (result ≡ first_of level) × (result < 16777216) }
{
    FIRST_OF_EIGHT >> (24 - 3 * level)
}

// The bin of a level that holds the place beg.
fn bin_at(left: u32, shift: u32, beg: u64, last: u64) -> u32
    requires { Sound left shift beg last }
    ensures { (result ≡ first_of left + beg / 2 ^ shift) × (result < 33554432) }
{
    first_of(left) + (beg >> shift) as u32
}

// Up one level, with one level fewer left, while the ends differ.
pub fn bin_up(left: u32, shift: u32, beg: u64, last: u64) -> u32
    requires { Sound left shift beg last }
    ensures { result ≡ bin_up left shift beg last }
{
    if left == 0 {
        return 0;
    }
    if beg >> shift == last >> shift {
        return bin_at(left, shift, beg, last);
    }
    bin_up(left - 1, shift + 3, beg, last)
}

// n numbers from bin on, into out from at on.
fn put_numbers(bin: u32, n: usize, out: &mut [u32], at: usize)
    requires { (at + n ≤ length out.old) × (bin + n < 4294967296) }
    ensures { out.new ≡ splice out.old at (numbers_from bin n) }
{
    for j in 0..n {
        out[at + j] = bin + j as u32;
    }
}

// How many bins of a level the region meets.
fn level_count(left: u32, shift: u32, beg: u64, last: u64) -> usize
    requires { Sound left shift beg last }
    ensures { (result ≡ last / 2 ^ shift - beg / 2 ^ shift + 1) × (result ≤ 16777216) }
{
    ((last >> shift) - (beg >> shift)) as usize + 1
}

// How many bins of the levels that are left.
pub fn count_up(left: u32, shift: u32, beg: u64, last: u64) -> usize
    requires { Sound left shift beg last }
    ensures { (result ≡ length (bins_up left shift beg last)) × (result ≤ 1 + 16777216 * left) }
{
    if left == 0 {
        return 1;
    }
    count_up(left - 1, shift + 3, beg, last) + level_count(left, shift, beg, last)
}

// These bins, level by level from the coarsest, into the first places of out; how many they are.
pub fn put_up(left: u32, shift: u32, beg: u64, last: u64, out: &mut [u32]) -> usize
    requires sound { Sound left shift beg last }
    requires last_in_bounds { length (bins_up left shift beg last) ≤ length out.old }
    ensures { (result ≡ length (bins_up left shift beg last)) × (out.new ≡ splice out.old 0 (bins_up left shift beg last)) }
{
    if left == 0 {
        out[0] = 0;
        return 1;
    }
    let at = put_up(left - 1, shift + 3, beg, last, out);
    let n = level_count(left, shift, beg, last);
    put_numbers(bin_at(left, shift, beg, last), n, out, at);
    at + n
}
