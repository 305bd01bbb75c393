// Document 02, item 13: matches told apart from MD. A measuring pass decides every refusal, and then the list is written, each M as its runs of = and X.
#![tactic(auto)]

ghost use Rattle.std.specs.Prelude.{◌≡◌, ◌≤◌, ◌<◌, length};
ghost use Rattle.lists.specs.Lists.{splice};
ghost use Rattle.lists.specs.Runs.{holds};
ghost use Rattle.answers.specs.Settled.{Settled};
ghost use Rattle.md_rules.specs.Md.{columns_of};
ghost use Rattle.md_rules.specs.Rule.{is_told, is_loss, told, match_ops};
ghost use Rattle.md_rules.specs.InnerWalk.{Behind, StepAt, MayWrite, Wrote, Measured, WalkedIs};

use answers::{Answer, Refusal};
use md_rules::Spot;

// ---- any op

// Whether an op is a D of nonzero length.
fn is_loss(op: u32) -> bool
    ensures { result ≡ is_loss op }
{
    op % 16 == 2 && 0 < op / 16
}

// An op of the measuring pass.
fn step(text: &[u8], s: Spot, op: u32) -> Option<Spot>
    requires { Behind text.now s.at × (s.count < 1152921504606846976) }
    ensures { StepAt text.now s op result }
{
    if op % 16 == 0 {
        return md_runs::count_runs(text, s, op / 16);
    }
    if is_loss(op) {
        return md_text::deletion(text, s, op / 16);
    }
    Some(Spot {
        count: s.count + 1,
        ..s
    })
}

// An op of the writing pass.
fn write_op(text: &[u8], s: Spot, op: u32, out: &mut [u32]) -> Spot
    requires { MayWrite text.now s op out.old }
    ensures { Wrote text.now s op result out.old out.new }
{
    if op % 16 == 0 {
        return md_runs::write_runs(text, s, op, out);
    }
    out[s.count] = op;
    if !is_loss(op) {
        return Spot {
            count: s.count + 1,
            ..s
        };
    }
    let f = md_text::number(text, s.at + 1 + (op / 16) as usize).unwrap();
    Spot {
        at: f.at,
        left: f.n,
        count: s.count + 1,
    }
}

// ---- the list

// The measuring pass: how many ops there will be, where the text is well formed and the two agree.
fn measure(ops: &[u32], text: &[u8]) -> Option<usize>
    requires { length ops.now ≤ 65535 }
    ensures { WalkedIs ops.now text.now result }
{
    let f = md_text::number(text, 0)?;
    let mut s = Spot {
        at: f.at,
        left: f.n,
        count: 0,
    };
    for op in ops {
        s = step(text, s, *op)?;
    }
    if s.left != 0 || s.at < text.len() {
        return None;
    }
    Some(s.count)
}

// The writing pass.
fn write(ops: &[u32], text: &[u8], out: &mut [u32])
    requires ops_len_bound { (length ops.now ≤ 65535) × Measured ops.now text.now (length (told ops.now (columns_of text.now))) }
    requires text_in_bounds { length (told ops.now (columns_of text.now)) ≤ length out.old }
    ensures { out.new ≡ splice out.old 0 (told ops.now (columns_of text.now)) }
{
    let f = md_text::number(text, 0).unwrap();
    let mut s = Spot {
        at: f.at,
        left: f.n,
        count: 0,
    };
    for op in ops {
        s = write_op(text, s, *op, out);
    }
}

// Whether a list holds = or X.
fn holds_told(ops: &[u32]) -> bool
    ensures { result ≡ holds is_told ops.now }
{
    ops.iter().any(|op| matches!(op % 16, 7 | 8))
}

// The list with each M as the runs of = and X that an MD text tells, in the first places of out. Refusals 3, 20, 21, 22, 6.
pub fn match_ops_from_md(ops: &[u32], text: &[u8], out: &mut [u32]) -> Answer<u64>
    ensures { Settled (match_ops ops.now text.now out.old) result out.new }
{
    if oplist::MOST_OPS < ops.len() {
        return Err(Refusal::TooManyOps);
    }
    let Some(n) = measure(ops, text) else {
        if !md_text::well_formed(text) {
            return Err(Refusal::BadMd);
        }
        if holds_told(ops) {
            return Err(Refusal::MatchesTold);
        }
        return Err(Refusal::MdDisagrees);
    };
    if holds_told(ops) {
        return Err(Refusal::MatchesTold);
    }
    if out.len() < n {
        return Err(Refusal::NoRoom);
    }
    write(ops, text, out);
    Ok(n as u64)
}
