// Document 02, item 11: the CSI bin of a region, over min_shift and depth, and all bins that may overlap it.
#![tactic(auto)]

ghost use Rattle.std.specs.Prelude.{◌≡◌};
ghost use Rattle.answers.specs.Settled.{Settled};
ghost use Rattle.csi_rules.specs.Csi.{csi_bin, csi_bins};

use answers::{Answer, Refusal};
use csi_rules::Region;

// The bin of the region from beg to before end. Refusals 17 and 18.
pub fn csi_reg2bin(beg: i64, end: i64, min_shift: u32, depth: u32) -> Answer<u32>
    ensures { result ≡ csi_bin beg end min_shift depth }
{
    let Region { first, last } = csi_region::region_of(beg, end, min_shift, depth)?;
    Ok(csi_levels::bin_up(depth, min_shift, first, last))
}

// All bins that may overlap the region, into the first places of out; how many they are. Refusals 17, 18 and 6.
pub fn csi_reg2bins(beg: i64, end: i64, min_shift: u32, depth: u32, out: &mut [u32]) -> Answer<u64>
    ensures { Settled (csi_bins beg end min_shift depth out.old) result out.new }
{
    let Region { first, last } = csi_region::region_of(beg, end, min_shift, depth)?;
    let n = csi_levels::count_up(depth, min_shift, first, last);
    if out.len() < n {
        return Err(Refusal::NoRoom);
    }
    csi_levels::put_up(depth, min_shift, first, last, out);
    Ok(n as u64)
}
