// Document 01, module 5: whether an op list is a valid mapped CIGAR, by one walk over it.
#![tactic(auto)]

ghost use Rattle.std.specs.Prelude.{◌≡◌, cond};
ghost use Rattle.sam.specs.Op.{code_of};
ghost use Rattle.text_rules.specs.Valid.{valid_mapped};
ghost use Rattle.validity.specs.Validity.{validity};
ghost use Rattle.validity.specs.InnerClass.{Class.Reference, Class.Other, Class.Soft, Class.Hard};
ghost use Rattle.validity.specs.InnerStages.{code_class, is_inner_class, is_past, step_of, accept_of, is_wrong};

use answers::{Answer, Refusal};
use oplist::{Lent, OpList};

// How far the ops so far have got in H? S? inner S? H?: at the start, after H, past the leading clips without a reference op (`Inner`) or with one
// (`Good`), after the S or the H at the end. `Wrong`: they are no valid mapped CIGAR, whatever follows.
#[derive(Clone, Copy)]
pub enum Stage {
    Start,
    AfterHard,
    Inner,
    Good,
    EndSoft,
    EndHard,
    Wrong,
}

// Whether an op's code is an inner op's, which is neither a clip nor unknown: bit c of 463 is code c's.
pub fn is_inner(op: u32) -> bool
    ensures { result ≡ is_inner_class (code_class (code_of op)) }
{
    (463u32 >> (op % 16)) % 2 == 1
}

impl Stage {
    // Past the inner ops.
    fn is_past(self) -> bool
        ensures { result ≡ is_past self }
    {
        matches!(self, Stage::EndSoft | Stage::EndHard | Stage::Wrong)
    }

    // Whether the ops so far are a valid mapped CIGAR.
    pub fn accept(self) -> bool
        ensures { result ≡ accept_of self }
    {
        matches!(self, Stage::Good | Stage::EndSoft | Stage::EndHard)
    }

    pub fn is_wrong(self) -> bool
        ensures { result ≡ is_wrong self }
    {
        matches!(self, Stage::Wrong)
    }

    // The stage after an inner op.
    fn after_inner(self, reference: bool) -> Stage
        ensures { result ≡ step_of self (cond reference Reference Other) }
    {
        if self.is_past() {
            return Stage::Wrong;
        }
        if self.accept() || reference {
            return Stage::Good;
        }
        Stage::Inner
    }

    fn after_soft(self) -> Stage
        ensures { result ≡ step_of self Soft }
    {
        match self {
            Stage::Start | Stage::AfterHard => Stage::Inner,
            Stage::Good => Stage::EndSoft,
            _ => Stage::Wrong,
        }
    }

    fn after_hard(self) -> Stage
        ensures { result ≡ step_of self Hard }
    {
        match self {
            Stage::Start => Stage::AfterHard,
            Stage::Good | Stage::EndSoft => Stage::EndHard,
            _ => Stage::Wrong,
        }
    }

    // The stage after an op that has a length. Most ops are inner ones, which one test of the code tells.
    pub fn step(self, op: u32) -> Stage
        ensures { result ≡ step_of self (code_class (code_of op)) }
    {
        if is_inner(op) {
            return self.after_inner(ops::consumes_ref(op));
        }
        match op % 16 {
            4 => self.after_soft(),
            5 => self.after_hard(),
            _ => Stage::Wrong,
        }
    }
}

// Whether an op list is a valid mapped CIGAR.
pub fn valid<L: OpList>(list: L) -> bool
    ensures { result ≡ valid_mapped (L.ops list) }
{
    let mut p = Stage::Start;
    for i in 0..list.count() {
        let op = list.op(i);
        if op < 16 {
            return false;
        }
        p = p.step(op);
        if p.is_wrong() {
            return false;
        }
    }
    p.accept()
}

// Whether a lent list is a valid mapped CIGAR. Refusal 3.
pub fn is_valid_mapped_cigar(ops: &[u32]) -> Answer<bool>
    ensures { result ≡ validity ops.now }
{
    let list = Lent::new(ops, oplist::MOST_OPS).ok_or(Refusal::TooManyOps)?;
    Ok(valid(list))
}
