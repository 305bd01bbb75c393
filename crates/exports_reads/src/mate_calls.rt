// Mate text.
ghost use Rattle.std.specs.Prelude.{◌≡◌};
ghost use Rattle.mate_text.specs.Mate.{mate_unclipped, mate_unclipped1};
ghost use Rattle.border.specs.Border.{flagged};

use answers::Pos0;

#[unsafe(no_mangle)]
pub extern "C" fn cigar_mate_unclipped_5prime(position: i32, reverse: u8, text: &[u8]) -> i32
    ensures { result ≡ (mate_unclipped (record { 0 = position }) (flagged reverse) text.now).0 }
{
    mate_text::mate_unclipped_5prime(Pos0(position), border::flag(reverse), text).0
}

#[unsafe(no_mangle)]
pub extern "C" fn cigar_mate_unclipped_5prime_1based(position: i32, reverse: u8, text: &[u8]) -> i32
    ensures { result ≡ (mate_unclipped1 (record { 0 = position }) (flagged reverse) text.now).0 }
{
    mate_text::mate_unclipped_5prime_1based(Pos0(position), border::flag(reverse), text).0
}
