// Document 02, item 1: the walk over tags, up to the first CG, and the list in it. An inner crate of the reader of a record's true op list.
#![tactic(auto)]

ghost use Rattle.std.specs.Prelude.{◌≡◌, ◌+◌, ◌≤◌, ◌<◌, length, drop};
ghost use Rattle.sam.specs.Tags.{tag_size, tag_at, tags_of, is_cg};
ghost use Rattle.tag_rules.specs.Long.{list_in, first_cg};

use answers::{Answer, Refusal};
use oplist::Area;

// Whether the tag at a place is CG.
fn is_cg(b: &[u8], at: usize) -> bool
    requires nonzero { 0 < tag_size (drop at b.now) }
    requires b_in_bounds { at + tag_size (drop at b.now) ≤ length b.now }
    ensures { result ≡ is_cg (tag_at (drop at b.now)) }
{
    b[at] == b'C' && b[at + 1] == b'G'
}

// The list in the CG at a place. Refusals 13 and 3.
fn list_in(b: &[u8], at: usize) -> Answer<Area>
    requires nonzero { 0 < tag_size (drop at b.now) }
    requires b_in_bounds { at + tag_size (drop at b.now) ≤ length b.now }
    ensures { result ≡ list_in (at + 3) (tag_at (drop at b.now)) }
{
    if b[at + 2] != b'B' {
        return Err(Refusal::OtherCg);
    }
    if b[at + 3] != b'I' {
        return Err(Refusal::OtherCg);
    }
    let n = little_endian::u32_at(b, at + 4);
    if oplist::MOST_LONG_OPS < n as usize {
        return Err(Refusal::TooManyOps);
    }
    Ok(Area { at: at + 8, n })
}

// The list in the first CG of the tags from a place on, and where there is none the list `without`. Refusals 12, 13 and 3.
pub fn first_cg(b: &[u8], from: usize, without: Answer<Area>) -> Answer<Area>
    requires { from ≤ length b.now }
    ensures { result ≡ first_cg without from (tags_of (drop from b.now)) }
{
    let mut at = from;
    // No `for`: each step is as long as the tag.
    while at < b.len() {
        let size = tag_sizes::tag_size(b, at);
        if size == 0 {
            return Err(Refusal::BadTags);
        }
        if is_cg(b, at) {
            return list_in(b, at);
        }
        at += size;
    }
    without
}
