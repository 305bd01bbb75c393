// Comparing a stretch of a received record with what would be written there: by walks of the shape of those that write. An inner crate of the receiving check.
// Buffers come with a place in them: it is a sum of a record's parts, and for slices each caller would cut at two such sums.
#![tactic(auto)]

ghost use Rattle.std.specs.Prelude.{◌≡◌, [], ◌∷◌, ◌+◌, ◌-◌, ◌*◌, ◌/◌, ◌%◌, ◌≤◌, length, take, drop};
ghost use Rattle.sam.specs.Bases.{bases_of, packed};
ghost use Rattle.sam.specs.Record.{ops_in, op_bytes};
ghost use Rattle.record_rules.specs.InnerPlan.{planned_ops};
ghost use Rattle.receive_rules.specs.Receiving.{same};

use clip_rules::Plan;

// Whether the n bytes of got from place `at` on are those of rec from place `from` on. All are looked at, with no branch, so that many are compared at a time.
pub fn same_bytes(got: &[u8], at: usize, rec: &[u8], from: usize, n: usize) -> bool
    requires n_in_bounds { at + n ≤ length got.now }
    requires n_in_bounds_2 { from + n ≤ length rec.now }
    ensures { result ≡ same (take n (drop at got.now)) (take n (drop from rec.now)) }
{
    let mut ok = true;
    for i in 0..n {
        ok &= got[at + i] == rec[from + i];
    }
    ok
}

// Whether got from place `at` on, to its end, is rec from place `from` on.
pub fn same_rest(got: &[u8], at: usize, rec: &[u8], from: usize) -> bool
    requires at_in_bounds { at ≤ length got.now }
    requires from_in_bounds { from ≤ length rec.now }
    ensures { result ≡ same (drop at got.now) (drop from rec.now) }
{
    let n = rec.len() - from;
    if got.len() - at != n {
        return false;
    }
    same_bytes(got, at, rec, from, n)
}

// k bytes of bases from an odd base on. All are looked at, with no branch, so that many are compared at a time.
fn same_shifted(got: &[u8], at: usize, rec: &[u8], area: usize, from: usize, k: usize) -> bool
    requires from_value { from % 2 ≡ 1 }
    requires k_in_bounds { at + k ≤ length got.now }
    requires k_in_bounds_2 { area + (from + 2 * k + 1) / 2 ≤ length rec.now }
    ensures { result ≡ same (take k (drop at got.now)) (packed (take (2 * k) (drop from (bases_of (drop area rec.now))))) }
{
    let first = area + from / 2;
    let mut ok = true;
    for i in 0..k {
        ok &= got[at + i] == record_bases::straddled(rec, first + i);
    }
    ok
}

// k bytes of bases, from base `from` on.
fn same_pairs(got: &[u8], at: usize, rec: &[u8], area: usize, from: usize, k: usize) -> bool
    requires k_in_bounds { at + k ≤ length got.now }
    requires k_in_bounds_2 { area + (from + 2 * k + 1) / 2 ≤ length rec.now }
    ensures { result ≡ same (take k (drop at got.now)) (packed (take (2 * k) (drop from (bases_of (drop area rec.now))))) }
{
    if from % 2 == 0 {
        return same_bytes(got, at, rec, area + from / 2, k);
    }
    same_shifted(got, at, rec, area, from, k)
}

// Whether got, from place `at` on, holds n bases, from base `from` of those packed from place `area` of rec on; an odd last half is 0.
pub fn same_bases(got: &[u8], at: usize, rec: &[u8], area: usize, from: usize, n: usize) -> bool
    requires n_in_bounds { at + (n + 1) / 2 ≤ length got.now }
    requires n_in_bounds_2 { area + (from + n + 1) / 2 ≤ length rec.now }
    ensures { result ≡ same (take ((n + 1) / 2) (drop at got.now)) (packed (take n (drop from (bases_of (drop area rec.now))))) }
{
    let pairs = same_pairs(got, at, rec, area, from, n / 2);
    if n % 2 == 0 {
        return pairs;
    }
    pairs & (got[at + n / 2] == record_bases::alone(&rec[area..], from + n - 1))
}

// The first `heads` of two ops.
fn same_heads(got: &[u8], at: usize, heads: usize, a: u32, b: u32) -> bool
    requires heads_bound { heads ≤ 2 }
    requires heads_in_bounds { at + 4 * heads ≤ length got.now }
    ensures { result ≡ same (take (4 * heads) (drop at got.now)) (op_bytes (take heads (a ∷ (b ∷ [])))) }
{
    if heads == 0 {
        return true;
    }
    if little_endian::u32_at(got, at) != a {
        return false;
    }
    if heads == 1 {
        return true;
    }
    little_endian::u32_at(got, at + 4) == b
}

// Whether got, from place `at` on, holds the ops that a plan leaves, of n ops from place `area` of rec on. At the start those put in place stand first; at the end they stand last, the first of them behind the other.
pub fn same_ops(
    got: &[u8],
    at: usize,
    rec: &[u8],
    area: usize,
    n: usize,
    p: Plan,
    start: bool,
) -> bool
    requires heads_bound { p.heads ≤ 2 }
    requires skip_le_n { p.skip ≤ n }
    requires n_in_bounds { area + 4 * n ≤ length rec.now }
    requires skip_in_bounds { at + 4 * (p.heads + (n - p.skip)) ≤ length got.now }
    ensures { result ≡ same (take (4 * (p.heads + (n - p.skip))) (drop at got.now)) (op_bytes (planned_ops start (ops_in rec.now area n) p)) }
{
    let kept = 4 * (n - p.skip);
    if start {
        let behind = at + 4 * p.heads;
        return same_heads(got, at, p.heads, p.first, p.second)
            & same_bytes(got, behind, rec, area + 4 * p.skip, kept);
    }
    let rest = same_bytes(got, at, rec, area, kept);
    if p.heads == 2 {
        return rest & same_heads(got, at + kept, p.heads, p.second, p.first);
    }
    rest & same_heads(got, at + kept, p.heads, p.first, p.second)
}
