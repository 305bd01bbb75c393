// The parts of a record: where they begin, bytes copied as they stand, and numbers stored. An inner crate.
#![tactic(auto)]

ghost use Rattle.std.specs.Prelude.{◌≡◌, ◌+◌, ◌*◌, ◌≤◌, ◌<◌, length, take, drop};
ghost use Rattle.lists.specs.Lists.{splice};
ghost use Rattle.sam.specs.Parts.{uint16};
ghost use Rattle.sam.specs.Record.{bases_start, quals_start, tags_start, seq_len_of, uint32};

// Copies the N bytes from place `at` on. The compiler knows N, so that C's memmove is not called; and all are read before one is stored, so that they go in a few loads and stores,
// whatever it knows of the two slices.
fn copy_block<const N: usize>(from: &[u8], to: &mut [u8], at: usize)
    requires from_in_bounds { at + N ≤ length from.now }
    requires to_in_bounds { at + N ≤ length to.old }
    ensures { to.new ≡ splice to.old at (take N (drop at from.now)) }
{
    let mut held: [u8; N] = [0; N];
    held.copy_from_slice(&from[at..at + N]);
    to[at..at + N].copy_from_slice(&held);
}

// Copies N to 2 * N bytes: the first N and the last N, which meet or overlap.
fn copy_ends<const N: usize>(from: &[u8], to: &mut [u8])
    requires same_length { length from.now ≡ length to.old }
    requires n_le_length { N ≤ length from.now }
    requires length_bound { length from.now ≤ 2 * N }
    ensures { to.new ≡ from.now }
{
    let last = from.len() - N;
    copy_block::<N>(from, to, 0);
    copy_block::<N>(from, to, last);
}

// Copies more than 64 bytes, block by block; the last block may be copied twice in part.
fn copy_blocks(from: &[u8], to: &mut [u8])
    requires same_length { length from.now ≡ length to.old }
    requires length_bound { 64 < length from.now }
    ensures { to.new ≡ from.now }
{
    for i in 0..(from.len() - 1) / 16 {
        copy_block::<16>(from, to, 16 * i);
    }
    copy_block::<16>(from, to, from.len() - 16);
}

// Copies bytes. `copy_from_slice` alone would call C's memmove, and the archives ask for nothing of C.
pub fn copy_bytes(from: &[u8], to: &mut [u8])
    requires { length from.now ≡ length to.old }
    ensures { to.new ≡ from.now }
{
    match from.len() {
        0 => {}
        1 => copy_ends::<1>(from, to),
        2..=3 => copy_ends::<2>(from, to),
        4..=7 => copy_ends::<4>(from, to),
        8..=15 => copy_ends::<8>(from, to),
        16..=32 => copy_ends::<16>(from, to),
        33..=64 => copy_ends::<32>(from, to),
        _ => copy_blocks(from, to),
    }
}

// Stores a number of 16 bits.
pub fn put_u16(n: u32, out: &mut [u8], at: usize)
    requires { at + 2 ≤ length out.old }
    ensures { out.new ≡ splice out.old at (uint16 n) }
{
    out[at..at + 2].copy_from_slice(&((n % 65536) as u16).to_le_bytes());
}

// Stores a number of 32 bits.
pub fn put_u32(n: u32, out: &mut [u8], at: usize)
    requires { at + 4 ≤ length out.old }
    ensures { out.new ≡ splice out.old at (uint32 n) }
{
    out[at..at + 4].copy_from_slice(&n.to_le_bytes());
}

// Where a record's bases begin.
pub fn bases_start(rec: &[u8]) -> usize
    requires { 32 ≤ length rec.now }
    ensures { (result ≡ bases_start rec.now) × (result < 262428) }
{
    32 + little_endian::u8_at(rec, 8) as usize + 4 * (little_endian::u16_at(rec, 12) as usize)
}

// How many bases a record has.
pub fn seq_len(rec: &[u8]) -> usize
    requires { 32 ≤ length rec.now }
    ensures { (result ≡ seq_len_of rec.now) × (result < 4294967296) }
{
    little_endian::u32_at(rec, 16) as usize
}

// Where a record's qualities begin.
pub fn quals_start(rec: &[u8]) -> usize
    requires { 32 ≤ length rec.now }
    ensures { (result ≡ quals_start rec.now) × (result < 2147746076) }
{
    bases_start(rec) + (seq_len(rec) + 1) / 2
}

// Where a record's tags begin.
pub fn tags_start(rec: &[u8]) -> usize
    requires { 32 ≤ length rec.now }
    ensures { (result ≡ tags_start rec.now) × (result < 6442713372) }
{
    quals_start(rec) + seq_len(rec)
}
