// The SAM specification's section 4.2: where the records of a BAM stream begin, found block by block wherever the stream is cut. An inner crate of the program `bam_to_cgr`.
#![tactic(auto)]

ghost use Rattle.std.specs.Prelude.{◌≡◌, true, false, List, ℕ, ◌<◌, length};
ghost use Rattle.bam_header.specs.Header.{is_bam, texted};
ghost use Rattle.bam_header.specs.Inner.{is_records, from_place, behind_number, is_ready, is_begun, HeadGone, HeadWent};

// What comes next in a head: the size of its text, the number of its references, or the references that are left, each behind its name's size.
#[derive(Clone, Copy)]
pub enum HeadPart {
    TextSize,
    Count,
    Names(u32),
}

// Where a head was left: so many bytes are to be skipped before that part.
#[derive(Clone, Copy)]
pub struct HeadPlace {
    pub skip: u64,
    pub part: HeadPart,
}

// How far a block of input went: the bytes used, and the place behind them.
#[derive(Clone, Copy)]
pub struct Step {
    pub used: usize,
    pub place: HeadPlace,
}

// Whether a stream begins as a BAM stream does.
pub fn magic(s: &[u8]) -> bool
    ensures { result ≡ is_bam s.now }
{
    s.starts_with(b"BAM\x01")
}

// The place behind the magic.
pub fn start() -> HeadPlace
    ensures { (s : List ℕ) → from_place result s ≡ texted s }
{
    HeadPlace {
        skip: 0,
        part: HeadPart::TextSize,
    }
}

// Whether a part is the records themselves.
fn is_records(part: HeadPart) -> bool
    ensures { result ≡ is_records part }
{
    matches!(part, HeadPart::Names(0))
}

// Whether the records begin here.
pub fn begun(p: HeadPlace) -> bool
    ensures { result ≡ is_begun p }
{
    p.skip == 0 && is_records(p.part)
}

// Whether n bytes at hand are enough to go on.
fn ready(p: HeadPlace, n: usize) -> bool
    ensures { result ≡ is_ready p n }
{
    if 0 < p.skip {
        return 0 < n;
    }
    !is_records(p.part) && 4 <= n
}

// The place behind a number: a text is skipped, and a name with the length behind it.
fn behind_number(part: HeadPart, number: u32) -> HeadPlace
    requires { is_records part ≡ false }
    ensures { result ≡ behind_number part number }
{
    match part {
        HeadPart::TextSize => HeadPlace {
            skip: u64::from(number),
            part: HeadPart::Count,
        },
        HeadPart::Count => HeadPlace {
            skip: 0,
            part: HeadPart::Names(number),
        },
        HeadPart::Names(left) => HeadPlace {
            skip: u64::from(number) + 4,
            part: HeadPart::Names(left - 1),
        },
    }
}

// One turn: bytes are skipped, or a number is read.
fn turn(s: &[u8], p: HeadPlace) -> Step
    requires { is_ready p (length s.now) ≡ true }
    ensures head_gone { HeadGone s.now p result }
    ensures used_nonzero { 0 < result.used }
{
    if 0 < p.skip {
        let n = p.skip.min(s.len() as u64);
        return Step {
            used: n as usize,
            place: HeadPlace {
                skip: p.skip - n,
                ..p
            },
        };
    }
    let number = little_endian::u32_at(s, 0);
    Step {
        used: 4,
        place: behind_number(p.part, number),
    }
}

// Goes as far as the bytes at hand go.
pub fn read_on(s: &[u8], from: HeadPlace) -> Step
    ensures { HeadWent s.now from result }
{
    let mut used: usize = 0;
    let mut place = from;
    while ready(place, s.len() - used) {
        let step = turn(&s[used..], place);
        used += step.used;
        place = step.place;
    }
    Step { used, place }
}
