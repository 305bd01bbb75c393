// Document 01, module 3: the one walk that sums the reference and query bases of an op list, and a sum as a signed number. An inner crate of the lengths.
#![tactic(auto)]

ghost use Rattle.std.specs.Prelude.{◌≡◌, cond, ◌+◌, ◌*◌, ◌≤◌, ◌<◌, length, drop, pos};
ghost use Rattle.lists.specs.Lists.{sum_of};
ghost use Rattle.signed.specs.Whole.{clamp32};
ghost use Rattle.sam.specs.Op.{len_of, is_ref, is_query, ref_len, query_len};
ghost use Rattle.length_rules.specs.Lengths.{as_int};

use answers::{Answer, Refusal};
use oplist::OpList;

// The reference and query bases of an op list.
#[derive(Clone, Copy)]
pub struct Totals {
    pub refs: u64,
    pub query: u64,
}

// The walk, over the ops from place `from` on that stand before place `end`.
pub fn sums_between<L: OpList>(list: L, from: usize, end: usize) -> Totals
    requires { (from ≤ end) × (end ≤ length (L.ops list)) }
    ensures list_value { (result.refs + sum_of ref_len (drop end (L.ops list)) ≡ sum_of ref_len (drop from (L.ops list))) × (result.query + sum_of query_len (drop end (L.ops list)) ≡ sum_of query_len (drop from (L.ops list))) }
    ensures refs_bound { (result.refs ≤ 1152921504606846976) × (result.query ≤ 1152921504606846976) }
{
    let mut refs: u64 = 0;
    let mut query: u64 = 0;
    for i in from..end {
        let op = list.op(i);
        refs += ops::ref_len(op);
        query += ops::query_len(op);
    }
    Totals { refs, query }
}

// The walk over all ops.
pub fn sums<L: OpList>(list: L) -> Totals
    ensures refs_value { (result.refs ≡ sum_of ref_len (L.ops list)) × (result.query ≡ sum_of query_len (L.ops list)) }
    ensures refs_bound { (result.refs ≤ 1152921504606846976) × (result.query ≤ 1152921504606846976) }
{
    sums_between(list, 0, list.count())
}

// What each base of an op with this code counts in a sum of both: 1 for the reference, 2^32 for the query. Every code has an arm, so that the compiler makes one load of it.
fn weight(code: u32) -> u64
    requires { code < 16 }
    ensures { result ≡ cond (is_ref code) 1 0 + cond (is_query code) 4294967296 0 }
{
    match code {
        0 => 0x1_0000_0001,
        1 => 0x1_0000_0000,
        2 => 1,
        3 => 1,
        4 => 0x1_0000_0000,
        5 => 0,
        6 => 0,
        7 => 0x1_0000_0001,
        8 => 0x1_0000_0001,
        9 => 0,
        10 => 0,
        11 => 0,
        12 => 0,
        13 => 0,
        14 => 0,
        _ => 0,
    }
}

// The reference bases of an op, and 2^32 times its query bases.
fn both_lens(op: u32) -> u64
    ensures { result ≡ ref_len op + 4294967296 * query_len op }
{
    (op / 16) as u64 * weight(op % 16)
}

// Both sums of all ops in one number, for lists that are not too long to be clipped: the query's in the high half.
pub fn short_sums<L: OpList>(list: L) -> Totals
    requires { sum_of len_of (L.ops list) < 268435456 }
    ensures { (result.refs ≡ sum_of ref_len (L.ops list)) × (result.query ≡ sum_of query_len (L.ops list)) }
{
    let mut both: u64 = 0;
    for i in 0..list.count() {
        both += both_lens(list.op(i));
    }
    Totals {
        refs: both % 0x1_0000_0000,
        query: both / 0x1_0000_0000,
    }
}

// n as a signed number, or refusal 4.
pub fn as_int(n: u64) -> Answer<i32>
    ensures { result ≡ as_int n }
{
    i32::try_from(n).ok().ok_or(Refusal::Overflow)
}

// n, or the largest signed number where n is larger.
pub fn saturated(n: u64) -> i32
    ensures { result ≡ clamp32 (pos n) }
{
    i32::try_from(n).unwrap_or(i32::MAX)
}
