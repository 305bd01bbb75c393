// Bases packed two to a byte, from any base on: read, shifted by one, and written. An inner crate.
#![tactic(auto)]

ghost use Rattle.std.specs.Prelude.{◌≡◌, ◌+◌, ◌*◌, ◌/◌, ◌%◌, ◌≤◌, ◌<◌, length, get_or, take, drop};
ghost use Rattle.lists.specs.Lists.{splice};
ghost use Rattle.sam.specs.Bases.{bases_of, packed};

// The first base of a byte.
fn high(x: u8) -> u8
    ensures { (result ≡ x / 16 % 16) × (result < 16) }
{
    x / 16
}

// The second base of a byte.
fn low(x: u8) -> u8
    ensures { (result ≡ x % 16) × (result < 16) }
{
    x % 16
}

// Two bases as a byte.
fn pair(first: u8, second: u8) -> u8
    requires { (first < 16) × (second < 16) }
    ensures { result ≡ first * 16 + second }
{
    first * 16 + second
}

// Base i of packed bases.
fn base_at(bases: &[u8], i: usize) -> u8
    requires { i / 2 < length bases.now }
    ensures { (result ≡ get_or (bases_of bases.now) i 0) × (result < 16) }
{
    if i % 2 == 0 {
        return high(bases[i / 2]);
    }
    low(bases[i / 2])
}

// Two bases that lie in two bytes: the second of byte i and the first of the next.
pub fn straddled(bases: &[u8], i: usize) -> u8
    requires { i + 1 < length bases.now }
    ensures { result ≡ get_or bases.now i 0 % 16 * 16 + get_or bases.now (i + 1) 0 / 16 % 16 }
{
    pair(low(bases[i]), high(bases[i + 1]))
}

// Base i by itself in a byte: the low half is 0.
pub fn alone(bases: &[u8], i: usize) -> u8
    requires { i / 2 < length bases.now }
    ensures { result ≡ get_or (bases_of bases.now) i 0 * 16 + 0 }
{
    pair(base_at(bases, i), 0)
}

// Writes the sixteen bytes from place `at` on of all bases but the first. All are made before one is stored, so that they go in one store.
// It is never inlined: in the loop over the blocks the compiler would make vectors across their turns, and 1,000 bases took three times as long.
#[inline(never)]
fn shift_sixteen(bases: &[u8], out: &mut [u8], at: usize)
    requires out_shorter { length out.old < length bases.now }
    requires at_in_bounds { at + 16 ≤ length out.old }
    ensures { out.new ≡ splice out.old at (take 16 (drop at (packed (take (2 * length out.old) (drop 1 (bases_of bases.now)))))) }
{
    let mut held: [u8; 16] = [0; 16];
    for i in 0..16 {
        held[i] = straddled(bases, at + i);
    }
    out[at..at + 16].copy_from_slice(&held);
}

// Writes bases from the second on, one by one.
fn shift_each(bases: &[u8], out: &mut [u8])
    requires { length out.old < length bases.now }
    ensures { out.new ≡ packed (take (2 * length out.old) (drop 1 (bases_of bases.now))) }
{
    for i in 0..out.len() {
        out[i] = straddled(bases, i);
    }
}

// Writes bases from the second on, sixteen bytes at a time; the last sixteen may be written twice in part.
fn put_shifted(bases: &[u8], out: &mut [u8])
    requires { length out.old < length bases.now }
    ensures { out.new ≡ packed (take (2 * length out.old) (drop 1 (bases_of bases.now))) }
{
    let k = out.len();
    if k < 16 {
        shift_each(bases, out);
        return;
    }
    for i in 0..(k - 1) / 16 {
        shift_sixteen(bases, out, 16 * i);
    }
    shift_sixteen(bases, out, k - 16);
}

// Writes as many pairs of bases as out has bytes, from base `from` on.
fn put_pairs(bases: &[u8], from: usize, out: &mut [u8])
    requires { (from + 2 * length out.old + 1) / 2 ≤ length bases.now }
    ensures { out.new ≡ packed (take (2 * length out.old) (drop from (bases_of bases.now))) }
{
    let first = from / 2;
    if from % 2 == 0 {
        record_parts::copy_bytes(&bases[first..first + out.len()], out);
        return;
    }
    put_shifted(&bases[first..], out);
}

// Writes n packed bases, from base `from` on, two to a byte; an odd last half is 0.
pub fn put_bases(bases: &[u8], from: usize, n: usize, out: &mut [u8])
    requires n_in_bounds { (from + n + 1) / 2 ≤ length bases.now }
    requires out_length { length out.old ≡ (n + 1) / 2 }
    ensures { out.new ≡ packed (take n (drop from (bases_of bases.now))) }
{
    put_pairs(bases, from, &mut out[..n / 2]);
    if n % 2 == 1 {
        out[n / 2] = alone(bases, from + n - 1);
    }
}
