// What crosses the C border: a struct for each shape of an answer, its number and its values, that a call returns in registers. An inner crate of the static libraries.
// `ToldInt`, `ToldCount` and `ToldFlag` differ in a type alone: the C interface needs them so. A generic `Told<T>` in an exported function's signature is refused (`unsupported-generic-in-c`).
#![tactic(auto)]

ghost use Rattle.std.specs.Prelude.{◌≡◌};
ghost use Rattle.answers.specs.Answers.{number_of, tell_int, tell_nat, tell_count, tell_flag, tell_place0, tell_place1, answered};
ghost use Rattle.border.specs.Plain.{tell_option, tell_found, tell_pair};
ghost use Rattle.border.specs.Border.{int_of, count_of, flag_of, found_of, two_of, flagged};

use answers::{Answer, Pos0, Pos1, Refusal};

// A signed number.
#[repr(C)]
#[derive(Clone, Copy)]
pub struct ToldInt {
    pub refusal: u32,
    pub value: i32,
}

// A number that is never negative: a field, a bin, a count.
#[repr(C)]
#[derive(Clone, Copy)]
pub struct ToldCount {
    pub refusal: u32,
    pub value: u64,
}

// Yes or no.
#[repr(C)]
#[derive(Clone, Copy)]
pub struct ToldFlag {
    pub refusal: u32,
    pub value: bool,
}

// None, or a number that is never negative.
#[repr(C)]
#[derive(Clone, Copy, Default)]
pub struct ToldFound {
    pub refusal: u32,
    pub found: bool,
    pub value: u64,
}

// What lookup found, and the ops that it examined: in 16 bytes, so that registers hold it.
#[repr(C)]
#[derive(Clone, Copy, Default)]
pub struct ToldLookup {
    pub refusal: u16,
    pub found: bool,
    pub examined: u32,
    pub value: u64,
}

// A position, or why there is none: which of three answers it is.
#[repr(C)]
#[derive(Clone, Copy, Default)]
pub struct ToldPosition {
    pub refusal: u32,
    pub which: u32,
    pub value: i32,
}

// Two numbers that are never negative.
#[repr(C)]
#[derive(Clone, Copy, Default)]
pub struct ToldTwo {
    pub refusal: u32,
    pub first: u64,
    pub second: u64,
}

// Reference and query length, and the soft and hard clips at both ends.
#[repr(C)]
#[derive(Clone, Copy, Default)]
pub struct ToldLengths {
    pub refusal: u32,
    pub reference: i32,
    pub query: u64,
    pub leading_soft: u64,
    pub leading_hard: u64,
    pub trailing_soft: u64,
    pub trailing_hard: u64,
}

// Where an alignment starts and ends, and how many blocks it has: in 16 bytes, so that registers hold it.
#[repr(C)]
#[derive(Clone, Copy, Default)]
pub struct ToldBlocks {
    pub refusal: u32,
    pub chrom_start: u32,
    pub chrom_end: u32,
    pub block_count: u32,
}

// A flag from the other side: anything but 0 is yes.
pub fn flag(n: u8) -> bool
    ensures { result ≡ flagged n }
{
    n != 0
}

// The number of a refusal, beside values that leave it 16 bits.
pub fn short_number(why: Refusal) -> u16
    ensures { result ≡ number_of why }
{
    answers::number(why) as u16
}

impl From<Answer<i32>> for ToldInt {
    ghost from_gives = { λ answer told. told ≡ int_of (tell_int answer) };

    fn from(answer: Answer<i32>) -> ToldInt {
        match answer {
            Ok(value) => ToldInt { refusal: 0, value },
            Err(why) => ToldInt {
                refusal: answers::number(why),
                value: 0,
            },
        }
    }
}

impl From<Answer<Pos0>> for ToldInt {
    ghost from_gives = { λ answer told. told ≡ int_of (tell_place0 answer) };

    fn from(answer: Answer<Pos0>) -> ToldInt {
        answers::bare0(answer).into()
    }
}

impl From<Answer<u64>> for ToldCount {
    ghost from_gives = { λ answer told. told ≡ count_of (tell_count answer) };

    fn from(answer: Answer<u64>) -> ToldCount {
        match answer {
            Ok(value) => ToldCount { refusal: 0, value },
            Err(why) => ToldCount {
                refusal: answers::number(why),
                value: 0,
            },
        }
    }
}

impl From<Answer<u32>> for ToldCount {
    ghost from_gives = { λ answer told. told ≡ count_of (tell_nat answer) };

    fn from(answer: Answer<u32>) -> ToldCount {
        answer.map(u64::from).into()
    }
}

impl From<Answer<bool>> for ToldFlag {
    ghost from_gives = { λ answer told. told ≡ flag_of (tell_flag answer) };

    fn from(answer: Answer<bool>) -> ToldFlag {
        match answer {
            Ok(value) => ToldFlag { refusal: 0, value },
            Err(why) => ToldFlag {
                refusal: answers::number(why),
                value: false,
            },
        }
    }
}

impl From<Option<u64>> for ToldFound {
    ghost from_gives = { λ place told. told ≡ found_of (answered (tell_option place)) };

    fn from(place: Option<u64>) -> ToldFound {
        match place {
            Some(value) => ToldFound {
                refusal: 0,
                found: true,
                value,
            },
            None => ToldFound::default(),
        }
    }
}

impl From<Answer<Option<u64>>> for ToldFound {
    ghost from_gives = { λ answer told. told ≡ found_of (tell_found answer) };

    fn from(answer: Answer<Option<u64>>) -> ToldFound {
        match answer {
            Ok(place) => place.into(),
            Err(why) => ToldFound {
                refusal: answers::number(why),
                ..Default::default()
            },
        }
    }
}

impl From<Answer<Option<Pos1>>> for ToldFound {
    ghost from_gives = { λ answer told. told ≡ found_of (tell_place1 answer) };

    fn from(answer: Answer<Option<Pos1>>) -> ToldFound {
        answer
            .map(|place| place.map(|p| signed::natural_of(p.0)))
            .into()
    }
}

impl From<Answer<(u64, u64)>> for ToldTwo {
    ghost from_gives = { λ answer told. told ≡ two_of (tell_pair answer) };

    fn from(answer: Answer<(u64, u64)>) -> ToldTwo {
        match answer {
            Ok((first, second)) => ToldTwo {
                refusal: 0,
                first,
                second,
            },
            Err(why) => ToldTwo {
                refusal: answers::number(why),
                ..Default::default()
            },
        }
    }
}
