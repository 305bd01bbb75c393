// Document 01, module 2: the kinds of ops, their codes and letters, and an op as a record holds it.
#![tactic(auto)]

ghost use Rattle.std.specs.Prelude.{◌≡◌, ◌<◌};
ghost use Rattle.sam.specs.Op.{len_of, code_of, is_ref, is_query};
ghost use Rattle.ops.specs.Ops.{letter_of};
ghost use Rattle.kinds.specs.Kinds.{code_of_kind, letter_of_kind, from_op_type, kind_of, new_op};

use answers::{Answer, Refusal};

// The kinds of ops, in the order of their codes, 0 to 8.
#[derive(Clone, Copy, PartialEq, Eq, Debug)]
pub enum CigarKind {
    Match,
    Insertion,
    Deletion,
    Skip,
    SoftClip,
    HardClip,
    Pad,
    SequenceMatch,
    SequenceMismatch,
}

// An op as a record holds it: its length times 16 plus its code.
#[derive(Clone, Copy, PartialEq, Eq, Debug)]
pub struct CigarOp(u32);

impl CigarKind {
    // The op's letter.
    #[tactic(auto, unfolding(ops::specs::Ops::letter_of))]
    pub fn as_char(self) -> u8
        ensures { result ≡ letter_of_kind self }
    {
        named(self.code()).letter
    }

    // The op's code.
    pub fn code(self) -> u32
        ensures { (result ≡ code_of_kind self) × (result < 9) }
    {
        self as u32
    }

    // The kind of a code, taken whole: none above 8.
    #[tactic(auto, unfolding(crate::specs::Kinds::from_op_type))]
    pub fn from_op_type(v: u32) -> Option<CigarKind>
        ensures { result ≡ from_op_type v }
    {
        if v <= 8 { Some(named(v).kind) } else { None }
    }
}

impl CigarOp {
    // The largest length of an op: 28 bits.
    pub const MAX_LEN: u32 = 268435455;

    pub fn from_raw(raw: u32) -> CigarOp
        ensures { result.0 ≡ raw }
    {
        CigarOp(raw)
    }

    // Refusal 10 for length 0 or above the largest.
    #[tactic(auto, unfolding(crate::specs::Kinds::new_op))]
    pub fn new(kind: CigarKind, len: u32) -> Answer<CigarOp>
        ensures { result ≡ new_op kind len }
    {
        if len == 0 || CigarOp::MAX_LEN < len {
            return Err(Refusal::BadLength);
        }
        Ok(CigarOp(len * 16 + kind.code()))
    }

    pub fn raw(self) -> u32
        ensures { result ≡ self.0 }
    {
        self.0
    }

    // The op's kind; `Pad` for the codes 9 to 15.
    pub fn kind(self) -> CigarKind
        ensures { result ≡ kind_of (code_of self.0) }
    {
        named(self.0 % 16).kind
    }

    pub fn len(self) -> u32
        ensures { result ≡ len_of self.0 }
    {
        self.0 / 16
    }

    pub fn consumes_query(self) -> bool
        ensures { result ≡ is_query (code_of self.0) }
    {
        ops::consumes_query(self.0)
    }

    pub fn consumes_ref(self) -> bool
        ensures { result ≡ is_ref (code_of self.0) }
    {
        ops::consumes_ref(self.0)
    }
}

// A code's kind and letter.
#[derive(Clone, Copy)]
pub struct Lettered {
    pub kind: CigarKind,
    pub letter: u8,
}

// The kind and letter of a code, by the one match on it (docs/RULES.md, "What form each place needs"); from 9 on `Pad`, and 0, which is no letter.
#[tactic(auto, unfolding(crate::specs::Kinds::kind_of, ops::specs::Ops::letter_of))]
pub fn named(code: u32) -> Lettered
    ensures { (result.kind ≡ kind_of code) × (result.letter ≡ letter_of code) }
{
    let (kind, letter) = match code {
        0 => (CigarKind::Match, b'M'),
        1 => (CigarKind::Insertion, b'I'),
        2 => (CigarKind::Deletion, b'D'),
        3 => (CigarKind::Skip, b'N'),
        4 => (CigarKind::SoftClip, b'S'),
        5 => (CigarKind::HardClip, b'H'),
        6 => (CigarKind::Pad, b'P'),
        7 => (CigarKind::SequenceMatch, b'='),
        8 => (CigarKind::SequenceMismatch, b'X'),
        9..=15 => (CigarKind::Pad, 0),
        _ => (CigarKind::Pad, 0),
    };
    Lettered { kind, letter }
}
