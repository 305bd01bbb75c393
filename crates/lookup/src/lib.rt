// Document 01, module 8: the query base over a reference position.
#![tactic(auto)]

ghost use Rattle.std.specs.Prelude.{◌≡◌, ◌≤◌, max};
ghost use Rattle.lookup_rules.specs.Lookup.{look, looked_up_to, looked, long_looked, read_over};
ghost use Rattle.lookup_rules.specs.Examined.{place_of};
ghost use Rattle.lookup.specs.InnerLookup.{spot_of, over_of};

use answers::{Answer, Refusal};
use lookup_rules::Found;
use oplist::{Lent, OpList};

// What stands over a reference base: a query base; none, as the read lacks it; or there is no such reference base.
#[derive(Clone, Copy)]
pub enum Over {
    Base,
    Gap,
    Off,
}

// That, and the query bases in the columns before it (in all columns, if there is no such reference base); and the place, counted from 1, of the op that decides.
#[derive(Clone, Copy)]
pub struct Spot {
    pub before: u64,
    pub over: Over,
    pub place: usize,
}

// The last alignment start that lookup takes: one past the last `pos`, counted from 1.
pub const LAST_START: u64 = 2147483648;

// What is seen at reference base k of the alignment, counted from 0.
fn look_at<L: OpList>(list: L, k: u64) -> Spot
    ensures result_value { (spot_of result ≡ look (L.ops list) k) × (result.before ≤ 1152921504606846976) }
    ensures place_value { result.place ≡ place_of (L.ops list) k }
{
    let mut before: u64 = 0;
    let mut left = k;
    for i in 0..list.count() {
        let op = list.op(i);
        let refs = ops::ref_len(op);
        if left < refs {
            if ops::consumes_query(op) {
                return Spot {
                    before: before + left,
                    over: Over::Base,
                    place: i + 1,
                };
            }
            return Spot {
                before,
                over: Over::Gap,
                place: i + 1,
            };
        }
        left -= refs;
        before += ops::query_len(op);
    }
    Spot {
        before,
        over: Over::Off,
        place: list.count(),
    }
}

// What lookup answers at a spot.
fn read_over(asked: bool, before: u64, over: Over) -> Option<u64>
    requires { before ≤ 1152921504606846976 }
    ensures { Ok result ≡ read_over asked before (over_of over) }
{
    match over {
        Over::Base => Some(before + 1),
        Over::Gap if asked => Some(before.max(1)),
        _ => None,
    }
}

// The query position over the reference position `pos` of an alignment that starts at `start`, all counted from 1; in a deletion none, or if asked
// the last query base before it. Beside it the ops examined: 0 before the start. Of a list of at most `limit` ops. Refusals 3 and 9.
fn read_pos_up_to(limit: usize, cigar: &[u32], start: u64, pos: u64, asked: bool) -> Answer<Found>
    requires { limit ≤ 4294967295 }
    ensures { result ≡ looked_up_to limit cigar.now start pos asked }
{
    let list = Lent::new(cigar, limit).ok_or(Refusal::TooManyOps)?;
    if start < 1 || LAST_START < start {
        return Err(Refusal::BadStart);
    }
    if pos < start {
        return Ok(Found {
            place: None,
            examined: 0,
        });
    }
    let s = look_at(list, pos - start);
    Ok(Found {
        place: read_over(asked, s.before, s.over),
        examined: s.place as u32,
    })
}

// The same of a lent list. Refusals 3 and 9.
pub fn read_pos_at_ref_pos_raw(cigar: &[u32], start: u64, pos: u64, asked: bool) -> Answer<Found>
    ensures { result ≡ looked cigar.now start pos asked }
{
    read_pos_up_to(oplist::MOST_OPS, cigar, start, pos, asked)
}

// And of a long list.
pub fn long_read_pos_at_ref_pos_raw(
    cigar: &[u32],
    start: u64,
    pos: u64,
    asked: bool,
) -> Answer<Found>
    ensures { result ≡ long_looked cigar.now start pos asked }
{
    read_pos_up_to(oplist::MOST_LONG_OPS, cigar, start, pos, asked)
}
