// Document 02, item 13, an M as its runs of = and X: counted, and written. An inner crate of `md`.
#![tactic(auto)]

ghost use Rattle.std.specs.Prelude.{◌≡◌, true, ◌+◌, ◌≤◌, ◌<◌, length};
ghost use Rattle.lists.specs.Lists.{splice};
ghost use Rattle.md_rules.specs.Rule.{is_match};
ghost use Rattle.md_rules.specs.InnerWalk.{run_of, pair_of, Behind, RunsAt, MayWrite, Wrote};

use md_rules::Spot;

// How many runs k mismatches and m matches are.
fn pair_count(k: u64, m: u64) -> usize
    ensures { result ≡ length (pair_of k m) }
{
    usize::from(k != 0) + usize::from(m != 0)
}

// Counts the runs of an M, of which k mismatches in a row are not counted yet. It tests the text, which `write_runs` need not: so they are two.
pub fn count_runs(text: &[u8], s: Spot, length: u32) -> Option<Spot>
    requires { Behind text.now s.at × (length < 268435456) × (s.count < 1152921504606846976) }
    ensures { RunsAt text.now s length result }
{
    let mut n = length as u64;
    let mut k: u64 = 0;
    let mut at = s.at;
    let mut left = s.left;
    let mut count = s.count;
    while left < n {
        if text.len() <= at || !text[at].is_ascii_uppercase() {
            return None;
        }
        let f = md_text::number(text, at + 1)?;
        if left == 0 {
            k += 1;
        } else {
            count += pair_count(k, left);
            k = 1;
        }
        n -= left + 1;
        left = f.n;
        at = f.at;
    }
    Some(Spot {
        at,
        left: left - n,
        count: count + pair_count(k, n),
    })
}

// Writes the run of n bases of a code, where there are some, and tells the place behind it.
fn put_run(out: &mut [u32], place: usize, n: u64, code: u32) -> usize
    requires { (n < 268435456) × (code < 16) × (place + length (run_of n code) ≤ length out.old) }
    ensures value { result ≡ place + length (run_of n code) }
    ensures out_after { out.new ≡ splice out.old place (run_of n code) }
{
    if n == 0 {
        return place;
    }
    out[place] = (n as u32) * 16 + code;
    place + 1
}

// Writes the runs of k mismatches and m matches.
fn put_pair(out: &mut [u32], place: usize, k: u64, m: u64) -> usize
    requires { (k < 268435456) × (m < 268435456) × (place + length (pair_of k m) ≤ length out.old) }
    ensures value { result ≡ place + length (pair_of k m) }
    ensures out_after { out.new ≡ splice out.old place (pair_of k m) }
{
    let next = put_run(out, place, k, 8);
    put_run(out, next, m, 7)
}

// Writes the runs of an M, of which k mismatches in a row are not written yet.
pub fn write_runs(text: &[u8], s: Spot, op: u32, out: &mut [u32]) -> Spot
    requires { MayWrite text.now s op out.old × (is_match op ≡ true) }
    ensures { Wrote text.now s op result out.old out.new }
{
    let mut n = (op / 16) as u64;
    let mut k: u64 = 0;
    let mut at = s.at;
    let mut left = s.left;
    let mut place = s.count;
    while left < n {
        let f = md_text::number(text, at + 1).unwrap();
        if left == 0 {
            k += 1;
        } else {
            place = put_pair(out, place, k, left);
            k = 1;
        }
        n -= left + 1;
        left = f.n;
        at = f.at;
    }
    let end = put_pair(out, place, k, n);
    Spot {
        at,
        left: left - n,
        count: end,
    }
}
