// How answers are printed.
use answers::{Answer, Pos1};
use clip_rules::Clipped;
use ends_rules::Unclipped;
use length_rules::RecordLengths;
use std::fmt;

// A value, or the refusal.
#[derive(Clone, Copy)]
pub struct Told<T>(pub Answer<T>);

impl<T: fmt::Display> fmt::Display for Told<T> {
    fn fmt<W: fmt::Write>(&self, f: &mut fmt::Formatter<W>) -> fmt::Result {
        match &self.0 {
            Ok(value) => write!(f, "{value}"),
            Err(why) => write!(f, "{why}"),
        }
    }
}

// A place, or `none`.
#[derive(Clone, Copy)]
pub struct Place(pub Option<Pos1>);

impl fmt::Display for Place {
    fn fmt<W: fmt::Write>(&self, f: &mut fmt::Formatter<W>) -> fmt::Result {
        match self.0 {
            Some(at) => write!(f, "{at}"),
            None => write!(f, "none"),
        }
    }
}

// The unclipped 5' position, or why the record has none.
#[derive(Clone, Copy)]
pub struct FivePrime(pub Unclipped);

impl fmt::Display for FivePrime {
    fn fmt<W: fmt::Write>(&self, f: &mut fmt::Formatter<W>) -> fmt::Result {
        match self.0 {
            Unclipped::At(at) => write!(f, "{at}"),
            Unclipped::Unmapped => write!(f, "unmapped"),
            Unclipped::NoOps => write!(f, "no ops"),
        }
    }
}

// Reference and query length, then the soft and hard clips at the start and at the end.
#[derive(Clone, Copy)]
pub struct Lengths(pub RecordLengths);

impl fmt::Display for Lengths {
    fn fmt<W: fmt::Write>(&self, f: &mut fmt::Formatter<W>) -> fmt::Result {
        let RecordLengths {
            reference,
            query,
            leading,
            trailing,
        } = self.0;
        write!(f, "{reference} {query} {} {}", leading.soft, leading.hard)?;
        write!(f, " {} {}", trailing.soft, trailing.hard)
    }
}

// Bytes as numbers, each after a space.
#[derive(Clone, Copy)]
pub struct Bytes<'a>(pub &'a [u8]);

impl fmt::Display for Bytes<'_> {
    fn fmt<W: fmt::Write>(&self, f: &mut fmt::Formatter<W>) -> fmt::Result {
        for byte in self.0 {
            write!(f, " {byte}")?;
        }
        Ok(())
    }
}

// An op's letter, `?` for the codes 9 to 15.
fn letter(op: u32) -> char {
    match kinds::named(op % 16).letter {
        0 => '?',
        letter => char::from(letter),
    }
}

// Ops as text, `.` for none.
#[derive(Clone, Copy)]
pub struct Ops<'a>(pub &'a [u32]);

impl fmt::Display for Ops<'_> {
    fn fmt<W: fmt::Write>(&self, f: &mut fmt::Formatter<W>) -> fmt::Result {
        if self.0.is_empty() {
            return write!(f, ".");
        }
        for &op in self.0 {
            write!(f, "{}{}", op / 16, letter(op))?;
        }
        Ok(())
    }
}

// The first n ops of the output; nothing where it has fewer.
#[derive(Clone, Copy)]
struct First<'a>(&'a [u32], u64);

impl fmt::Display for First<'_> {
    fn fmt<W: fmt::Write>(&self, f: &mut fmt::Formatter<W>) -> fmt::Result {
        match self.0.get(..self.1 as usize) {
            Some(ops) => write!(f, "{}", Ops(ops)),
            None => Ok(()),
        }
    }
}

// What clipping at the start answers, and the output that was lent: the list written and the count, or the refusal and what the output holds.
#[derive(Clone, Copy)]
pub struct ClippedStart<'a>(pub Answer<Clipped>, pub &'a [u32]);

impl fmt::Display for ClippedStart<'_> {
    fn fmt<W: fmt::Write>(&self, f: &mut fmt::Formatter<W>) -> fmt::Result {
        match self.0 {
            Ok(Clipped { written, lost }) => write!(f, "{} {lost}", First(self.1, written)),
            Err(why) => write!(f, "{why} leaves {}", Ops(self.1)),
        }
    }
}

// The same of clipping at the end, which answers no count.
#[derive(Clone, Copy)]
pub struct ClippedEnd<'a>(pub Answer<u64>, pub &'a [u32]);

impl fmt::Display for ClippedEnd<'_> {
    fn fmt<W: fmt::Write>(&self, f: &mut fmt::Formatter<W>) -> fmt::Result {
        match self.0 {
            Ok(written) => write!(f, "{}", First(self.1, written)),
            Err(why) => write!(f, "{why} leaves {}", Ops(self.1)),
        }
    }
}
