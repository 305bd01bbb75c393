// Document 01, module 10: the positions between a read and its mate, each step within an i32. An inner crate of the overhang.
#![tactic(auto)]

ghost use Rattle.std.specs.Prelude.{◌≡◌, ◌+◌, ◌≤◌, ◌<◌, min, false, pos, ◌+ℤ◌, ◌-ℤ◌, leb};
ghost use Rattle.signed.specs.Whole.{raised, clamp32};
ghost use Rattle.overhang_rules.specs.Overhang.{end_at, gap_to};
ghost use Rattle.overhang_rules.specs.InnerSides.{short_of, meet_at, clip_gap, room_past, Free};

use answers::Pos1;

// n positions after p.
fn after(p: Pos1, n: u64) -> Pos1
    ensures { result.0 ≡ clamp32 (p.0 +ℤ clamp32 (pos n)) }
{
    Pos1(signed::saturating_add(p.0, op_sums::saturated(n)))
}

// n positions before p.
fn ahead(p: Pos1, n: u64) -> Pos1
    ensures { result.0 ≡ clamp32 (p.0 -ℤ clamp32 (pos n)) }
{
    Pos1(signed::saturating_sub(p.0, op_sums::saturated(n)))
}

// The last position of an alignment with n reference bases.
pub fn alignment_end(p: Pos1, n: u64) -> Pos1
    ensures { result.0 ≡ end_at p.0 n }
{
    after(ahead(p, 1), n)
}

// The positions from b to before a.
fn gap(a: Pos1, b: Pos1) -> u64
    ensures { result ≡ gap_to a.0 b.0 }
{
    signed::natural_of(signed::saturating_sub(a.0, b.0))
}

// n places on; the last place is that of the largest number of an i32.
pub fn place_after(place: u64, n: u64) -> u64
    requires { (place < 4294967296) × (n < 268435456) }
    ensures { result ≡ min (place + n) 4294967295 }
{
    (place + n).min(4294967295)
}

// Where an alignment lies: its first and last position, and its reference bases.
#[derive(Clone, Copy)]
pub struct Extent {
    pub start: Pos1,
    pub end: Pos1,
    pub refs: u64,
    ghost bound: { refs ≤ 1152921504606846976 },
}

impl Extent {
    pub fn new(start: Pos1, refs: u64) -> Extent
        requires { refs ≤ 1152921504606846976 }
        ensures { (result.start.0 ≡ start.0) × (result.end.0 ≡ end_at start.0 refs) × (result.refs ≡ refs) }
    {
        let end = alignment_end(start, refs);
        Extent { start, end, refs }
    }

    // Whether a read ends, on the side that is measured, before its mate begins.
    pub fn stops_short(self, reverse: bool, mate: Extent) -> bool
        ensures { result ≡ short_of reverse self.start.0 self.end.0 mate.start.0 mate.end.0 }
    {
        if reverse {
            return mate.end.0 < self.start.0;
        }
        self.end.0 < mate.start.0
    }

    // The positions from where a read ends to its mate's end with `clip` bases more, on the side that is measured.
    pub fn clip_gap(self, reverse: bool, mate: Extent, clip: u64) -> u64
        ensures { result ≡ clip_gap reverse self.start.0 self.end.0 mate.start.0 mate.end.0 clip }
    {
        if reverse {
            return gap(self.start, ahead(mate.start, clip));
        }
        gap(after(mate.end, clip), self.end)
    }

    // The shared position that a read is measured from.
    pub fn meeting(self, reverse: bool, mate: Extent) -> Pos1
        ensures { result.0 ≡ meet_at reverse self.start.0 self.end.0 mate.start.0 mate.end.0 }
    {
        if reverse {
            return Pos1(self.start.0.max(mate.start.0));
        }
        Pos1(self.end.0.min(mate.end.0))
    }

    // Whether an alignment ends before the position after `place`.
    fn ends_by(self, place: u64) -> bool
        ensures { result ≡ leb (raised self.start.0 + self.refs) place }
    {
        signed::raise(self.start.0) + self.refs <= place
    }

    // Whether a position may be clamped within an i32 on the way to the target, so that the reference bases up to it don't tell where it lies.
    pub fn is_clamped(self, reverse: bool, mate: Extent, target: Pos1) -> bool
        ensures { result ≡ false → Free reverse target.0 self.start.0 self.refs × Free reverse target.0 mate.start.0 mate.refs }
    {
        let place = signed::raise(target.0);
        if place == 4294967295 {
            return true;
        }
        !reverse && (self.ends_by(place) || mate.ends_by(place))
    }

    // The reference bases of an alignment past the target, on the side that is measured.
    pub fn room_past(self, reverse: bool, target: Pos1) -> u64
        ensures { result ≡ room_past reverse target.0 self.start.0 self.refs }
    {
        let place = signed::raise(target.0);
        let start = signed::raise(self.start.0);
        if reverse {
            return place.saturating_sub(start);
        }
        (start + self.refs).saturating_sub(place + 1)
    }
}
