// What calls answer: a value, "none", or the refusal. Document 01, "Numbers and their bounds".
#![tactic(auto)]

ghost use Rattle.std.specs.Prelude.{◌≡◌, Some};
ghost use Rattle.answers.specs.Answers.{number_of, bare0};
ghost use Rattle.answers.specs.Texts.{refusal_text};
ghost use Rattle.std.specs.Fmt.{signed_decimal};

use std::fmt;

// What a call answers: a value, or why there is none.
pub type Answer<T> = Result<T, Refusal>;

// Why a call answers no value: one variant for each number, in their order; 11 is nobody's.
#[derive(Clone, Copy, PartialEq, Eq, Debug)]
pub enum Refusal {
    ShortRecord = 1,
    AreaOverrun = 2,
    TooManyOps = 3,
    Overflow = 4,
    NotACigar = 5,
    NoRoom = 6,
    BadCode = 7,
    TooLong = 8,
    BadStart = 9,
    BadLength = 10,
    BadTags = 12,
    OtherCg = 13,
    NoBlocks = 14,
    QueryDiffers = 15,
    CountOver = 16,
    BadLevels = 17,
    BadRegion = 18,
    AmountBeyond = 19,
    BadMd = 20,
    MatchesTold = 21,
    MdDisagrees = 22,
    ReceivedShort = 23,
    ReceivedCut = 24,
}

// A refusal is printed with its number, as `refused 4`.
impl fmt::Display for Refusal {
    ghost output = { λ why. Some (refusal_text why) };

    fn fmt<W: fmt::Write>(&self, f: &mut fmt::Formatter<W>) -> fmt::Result {
        write!(f, "refused {}", number(*self))
    }
}

// A position in a record, counted from 0.
#[derive(Clone, Copy, PartialEq, Eq, Debug)]
pub struct Pos0(pub i32);

// A position as answers have it, counted from 1.
#[derive(Clone, Copy, PartialEq, Eq, Debug)]
pub struct Pos1(pub i32);

impl fmt::Display for Pos0 {
    ghost output = { λ place. Some (signed_decimal place.0) };

    fn fmt<W: fmt::Write>(&self, f: &mut fmt::Formatter<W>) -> fmt::Result {
        write!(f, "{}", self.0)
    }
}

impl fmt::Display for Pos1 {
    ghost output = { λ place. Some (signed_decimal place.0) };

    fn fmt<W: fmt::Write>(&self, f: &mut fmt::Formatter<W>) -> fmt::Result {
        write!(f, "{}", self.0)
    }
}

// The number of a refusal: document 01's up to 10, and document 02's in documents 01 and 02.
pub fn number(why: Refusal) -> u32
    ensures { result ≡ number_of why }
{
    why as u32
}

// A place as a plain number.
pub fn bare0(place: Answer<Pos0>) -> Answer<i32>
    ensures { result ≡ bare0 place }
{
    place.map(|p| p.0)
}
