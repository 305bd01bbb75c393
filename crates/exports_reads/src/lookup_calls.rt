// Lookup.
ghost use Rattle.std.specs.Prelude.{◌≡◌};
ghost use Rattle.lookup_rules.specs.Lookup.{looked, tell_found};
ghost use Rattle.border.specs.Border.{lookup_of, flagged};

use border::ToldLookup;

#[unsafe(no_mangle)]
pub extern "C" fn cigar_read_pos_at_ref_pos_raw(
    ops: &[u32],
    start: u64,
    position: u64,
    asked: u8,
) -> ToldLookup
    ensures { result ≡ lookup_of (tell_found (looked ops.now start position (flagged asked))) }
{
    border_reads::told_found(lookup::read_pos_at_ref_pos_raw(
        ops,
        start,
        position,
        border::flag(asked),
    ))
}
