// Document 02, item 11, the region of a CSI bin: refusals 17 and 18, and its first and last place. An inner crate of `csi`.
#![tactic(auto)]

ghost use Rattle.std.specs.Prelude.{◌≡◌, ◌+◌, ◌*◌, ◌<◌};
ghost use Rattle.csi_rules.specs.Csi.{served, inside, region_of};

use answers::{Answer, Refusal};
use csi_rules::Region;

// Min_shift 10 to 20 and depth 1 to 8.
fn is_served(shift: u32, depth: u32) -> bool
    ensures { result ≡ served shift depth }
{
    (10..=20).contains(&shift) && (1..=8).contains(&depth)
}

// 0 ≤ beg < end ≤ 2^(shift + 3 * depth).
fn is_inside(beg: i64, end: i64, shift: u32, depth: u32) -> bool
    requires { shift + 3 * depth < 64 }
    ensures { result ≡ inside shift depth beg end }
{
    0 <= beg && beg < end && signed::natural64(end) <= 1u64 << (shift + 3 * depth)
}

// The region's first and last place. Refusals 17 and 18.
pub fn region_of(beg: i64, end: i64, shift: u32, depth: u32) -> Answer<Region>
    ensures { result ≡ region_of beg end shift depth }
{
    if !is_served(shift, depth) {
        return Err(Refusal::BadLevels);
    }
    if !is_inside(beg, end, shift, depth) {
        return Err(Refusal::BadRegion);
    }
    Ok(Region {
        first: signed::natural64(beg),
        last: signed::natural64(end) - 1,
    })
}
