// The op list wherever it lies: lent as numbers, or in a record's bytes. An inner crate; every rule is one walk over this.
#![tactic(auto)]

ghost use Rattle.std.specs.Prelude.{◌≡◌, ℕ, ◌+◌, ◌*◌, ◌≤◌, ◌<◌, List, length, get_or, take, drop, leb, MatchOption};
ghost use Rattle.lists.specs.Lists.{facing, splice};
ghost use Rattle.sam.specs.Record.{ops_start, op_count_of};
ghost use Rattle.oplist.specs.Ops.{ops_in_bytes, area_ops, record_ops};
ghost use Rattle.oplist.specs.Few.{few_in_bytes, few_facing};

// The most ops that a lent list may have: refusal 3 tests it, and nothing else.
pub const MOST_OPS: usize = 65535;

// The same of the calls that take long lists, and of a list that a record holds in its tag CG (document 02, item 1).
pub const MOST_LONG_OPS: usize = 1048576;

// An op list, wherever it lies: at most 4,294,967,295 ops.
pub trait OpList: Copy {
    ghost ops: { Self → List ℕ };

    fn count(self) -> usize
        ensures value { result ≡ length (ops self) }
        ensures bound { result ≤ 4294967295 };

    // Op i.
    fn op(self, i: usize) -> u32
        requires { i < length (ops self) }
        ensures { result ≡ get_or (ops self) i 0 };

    ghost few: { (list : Self) → length (ops list) ≤ 4294967295 };
}

// A whole lent list.
#[derive(Clone, Copy)]
pub struct Lent<'a> {
    words: &'a [u32],
    ghost short: { length words.now ≤ 4294967295 },
}

impl<'a> Lent<'a> {
    // None over `limit` ops.
    pub fn new(words: &'a [u32], limit: usize) -> Option<Lent<'a>>
        requires { limit ≤ 4294967295 }
        ensures { MatchOption result (limit < length words.now) (λ list. (length words.now ≤ limit) × (⟦<Lent<'a> as OpList>⟧.ops list ≡ words.now)) }
    {
        if limit < words.len() {
            return None;
        }
        Some(Lent { words })
    }
}

impl<'a> OpList for Lent<'a> {
    ghost ops = { λ it. it.words.now };

    ghost few = { λ it. it.short };

    fn count(self) -> usize {
        self.words.len()
    }

    fn op(self, i: usize) -> u32 {
        self.words[i]
    }
}

// The ops in a part of a record: four bytes each, and no other byte.
#[derive(Clone, Copy)]
pub struct InRecord<'a> {
    bytes: &'a [u8],
    ghost short: { length bytes.now ≤ 4 * 4294967295 },
}

impl<'a> OpList for InRecord<'a> {
    ghost ops = { λ it. ops_in_bytes it.bytes.now };

    ghost few = { λ it. few_in_bytes it.bytes.now it.short };

    fn count(self) -> usize {
        self.bytes.len() / 4
    }

    fn op(self, i: usize) -> u32 {
        little_endian::u32_at(self.bytes, 4 * i)
    }
}

// A list as seen from the chosen end.
#[derive(Clone, Copy)]
pub struct Facing<L: OpList> {
    list: L,
    start: bool,
}

impl<L: OpList> Facing<L> {
    pub fn new(list: L, start: bool) -> Facing<L>
        ensures { ⟦<Facing<L> as OpList>⟧.ops result ≡ facing start (L.ops list) }
    {
        Facing { list, start }
    }
}

impl<L: OpList> OpList for Facing<L> {
    ghost ops = { λ it. facing it.start (L.ops it.list) };

    ghost few = { λ it. few_facing it.start (L.ops it.list) (L.few it.list) };

    fn count(self) -> usize {
        self.list.count()
    }

    fn op(self, i: usize) -> u32 {
        if self.start {
            return self.list.op(i);
        }
        self.list.op(self.list.count() - 1 - i)
    }
}

// Where ops lie in a record: the place of the first, and how many there are.
#[derive(Clone, Copy)]
pub struct Area {
    pub at: usize,
    pub n: u32,
}

// The area of a record's own ops.
pub fn area_of(rec: &[u8]) -> Area
    requires { 32 ≤ length rec.now }
    ensures { (result.at ≡ ops_start rec.now) × (result.n ≡ op_count_of rec.now) }
{
    Area {
        at: 32 + little_endian::u8_at(rec, 8) as usize,
        n: little_endian::u16_at(rec, 12),
    }
}

// Whether an area ends within the record.
pub fn inside(rec: &[u8], area: Area) -> bool
    ensures { result ≡ leb (area.at + 4 * area.n) (length rec.now) }
{
    if rec.len() < area.at {
        return false;
    }
    4 * (area.n as usize) <= rec.len() - area.at
}

// The ops of an area; none where it ends past the record.
pub fn ops_at<'a>(rec: &'a [u8], area: Area) -> InRecord<'a>
    ensures { ⟦<InRecord<'a> as OpList>⟧.ops result ≡ area_ops rec.now area.at area.n }
{
    if !inside(rec, area) {
        return InRecord { bytes: &rec[..0] };
    }
    let end = area.at + 4 * (area.n as usize);
    InRecord {
        bytes: &rec[area.at..end],
    }
}

// The ops of a record; none where they end past it.
pub fn of_record<'a>(rec: &'a [u8]) -> InRecord<'a>
    requires { 32 ≤ length rec.now }
    ensures { ⟦<InRecord<'a> as OpList>⟧.ops result ≡ record_ops rec.now }
{
    ops_at(rec, area_of(rec))
}

// Copies n ops, from op `from` on, to the places of out from `at` on.
pub fn copy<L: OpList>(list: L, from: usize, n: usize, out: &mut [u32], at: usize)
    requires from_in_bounds { from + n ≤ length (L.ops list) }
    requires at_in_bounds { at + n ≤ length out.old }
    ensures { out.new ≡ splice out.old at (take n (drop from (L.ops list))) }
{
    for j in 0..n {
        out[at + j] = list.op(from + j);
    }
}
