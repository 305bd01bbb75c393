// Bins.
ghost use Rattle.std.specs.Prelude.{◌≡◌};
ghost use Rattle.answers.specs.Settled.{Settled};
ghost use Rattle.answers.specs.Answers.{tell_nat, tell_count};
ghost use Rattle.bin_rules.specs.Bin.{reg2bin, record_bin, set_bin};
ghost use Rattle.csi_rules.specs.Csi.{csi_bin, csi_bins};
ghost use Rattle.border.specs.Border.{count_of, across};

use answers::Pos0;
use border::ToldCount;

#[unsafe(no_mangle)]
pub extern "C" fn cigar_reg2bin(beg: i32, end: i32) -> ToldCount
    ensures { result ≡ count_of (tell_nat (reg2bin beg end)) }
{
    bin::reg2bin(Pos0(beg), end).into()
}

#[unsafe(no_mangle)]
pub extern "C" fn cigar_bin_from_raw_bam(rec: &[u8]) -> ToldCount
    ensures { result ≡ count_of (tell_nat (record_bin rec.now)) }
{
    bin::bin_from_raw_bam(rec).into()
}

#[unsafe(no_mangle)]
pub extern "C" fn cigar_set_bin_from_raw_bam(rec: &mut [u8]) -> ToldCount
    ensures { Settled (across count_of tell_nat (set_bin rec.old)) result rec.new }
{
    bin::set_bin_from_raw_bam(rec).into()
}

#[unsafe(no_mangle)]
pub extern "C" fn cigar_csi_reg2bin(beg: i64, end: i64, min_shift: u32, depth: u32) -> ToldCount
    ensures { result ≡ count_of (tell_nat (csi_bin beg end min_shift depth)) }
{
    csi::csi_reg2bin(beg, end, min_shift, depth).into()
}

#[unsafe(no_mangle)]
pub extern "C" fn cigar_csi_reg2bins(
    beg: i64,
    end: i64,
    min_shift: u32,
    depth: u32,
    out: &mut [u32],
) -> ToldCount
    ensures { Settled (across count_of tell_count (csi_bins beg end min_shift depth out.old)) result out.new }
{
    csi::csi_reg2bins(beg, end, min_shift, depth, out).into()
}
