// Whether a received record's header is the one of a plan: number by number where the plan has a new one, and as the bytes stand where they stay. An inner crate of the receiving check.
#![tactic(auto)]

ghost use Rattle.std.specs.Prelude.{◌≡◌, Bool, ◌||◌, ◌++◌, ◌≤◌, ◌<◌, length};
ghost use Rattle.sam.specs.Record.{uint32};
ghost use Rattle.sam.specs.Parts.{part, uint16};
ghost use Rattle.record_rules.specs.InnerPlan.{change_by, Fits};
ghost use Rattle.receive_rules.specs.Receiving.{same, same_header};

use record_rules::RecordPlan;

// Reference, position, the name's length and the mapping quality.
fn same_front(got: &[u8], rec: &[u8], place: u32) -> bool
    requires in_bounds { 32 ≤ length got.now }
    requires in_bounds_2 { 32 ≤ length rec.now }
    ensures { result ≡ same (part got.now 0 10) (part rec.now 0 4 ++ (uint32 place ++ part rec.now 8 2)) }
{
    let reference = receive_parts::same_bytes(got, 0, rec, 0, 4);
    let position = little_endian::u32_at(got, 4) == place;
    let name = receive_parts::same_bytes(got, 8, rec, 8, 2);
    reference & position & name
}

// The bin, or 0.
fn same_bin(got: &[u8], bin: u32) -> bool
    requires { 32 ≤ length got.now }
    ensures { result ≡ (same (part got.now 10 2) (uint16 bin) || same (part got.now 10 2) (uint16 0)) }
{
    let stored = little_endian::u16_at(got, 10);
    stored == 0 || stored == bin % 65536
}

// The number of ops, the flags, l_seq, and the mate's fields.
fn same_back(got: &[u8], rec: &[u8], n: u32, len: u32) -> bool
    requires in_bounds { 32 ≤ length got.now }
    requires in_bounds_2 { 32 ≤ length rec.now }
    requires n_bound { n < 65536 }
    ensures { result ≡ same (part got.now 12 20) (uint16 n ++ (part rec.now 14 2 ++ (uint32 len ++ part rec.now 20 12))) }
{
    let count = little_endian::u16_at(got, 12) == n;
    let flags = receive_parts::same_bytes(got, 14, rec, 14, 2);
    let bases = little_endian::u32_at(got, 16) == len;
    let mate = receive_parts::same_bytes(got, 20, rec, 20, 12);
    count & flags & bases & mate
}

// The whole header.
pub fn same_header(got: &[u8], rec: &[u8], p: RecordPlan) -> bool
    requires fits { Fits rec.now p }
    requires n_bound { p.n < 65536 }
    requires in_bounds { 32 ≤ length got.now }
    ensures { (start : Bool) → result ≡ same_header got.now rec.now (change_by rec.now start p) }
{
    let front = same_front(got, rec, signed::bits32(p.place));
    let bin = same_bin(got, p.bin);
    let back = same_back(got, rec, p.n, p.len);
    front & bin & back
}
