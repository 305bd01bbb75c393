// Document 01, module 5: a text's ops read once, into lent memory. An inner crate of the strict reader.
#![tactic(auto)]

ghost use Rattle.std.specs.Prelude.{◌≡◌, ◌*◌, ◌≤◌, length, set};
ghost use Rattle.validity.specs.declared.Stage.TheVariants.{Good};
ghost use Rattle.read_text.specs.InnerRead.{Onward, Stretched, ReadTo};

use validity::Stage;

// The ops read so far: their stage, how many they are, and the place after them.
#[derive(Clone, Copy)]
pub struct Reached {
    pub stage: Stage,
    pub n: usize,
    pub at: usize,
}

// Stores an op where there is room for it.
fn put(out: &mut [u32], at: usize, op: u32)
    ensures { out.new ≡ set out.old at op }
{
    if at < out.len() {
        out[at] = op;
    }
}

// Inner ops from a place on that have so many digits, as far as they go: the quick way through text that is foreseen.
fn alike(text: &[u8], from: usize, had: usize, digits: usize, out: &mut [u32]) -> Reached
    requires { (from ≤ length text.now) × (had * 2 ≤ from) }
    ensures { Onward text.now Good had from out.old result.stage result.n result.at out.new }
{
    let mut n = had;
    let mut i = from;
    while 5 <= text.len() - i {
        let Some(token) = alike_tokens::alike_token(text, i, digits) else {
            break;
        };
        if !validity::is_inner(token.code) {
            break;
        }
        put(out, n, token.len * 16 + token.code);
        n += 1;
        i = token.next;
    }
    Reached {
        stage: Stage::Good,
        n,
        at: i,
    }
}

// Sixteen ops more, or as many as there are: the way that no branch on the digits slows.
fn stretch(text: &[u8], seen: Reached, out: &mut [u32]) -> Option<Reached>
    requires { (seen.at ≤ length text.now) × (seen.n * 2 ≤ seen.at) }
    ensures { Stretched text.now seen out.old result out.new }
{
    let mut p = seen.stage;
    let mut n = seen.n;
    let mut i = seen.at;
    for _ in 0..16usize {
        if text.len() <= i {
            break;
        }
        let token = tokens::token_at(tokens::short_token(text, i), text, i)?;
        p = p.step(token.code);
        if p.is_wrong() {
            return None;
        }
        put(out, n, token.len * 16 + token.code);
        n += 1;
        i = token.next;
    }
    Some(Reached { stage: p, n, at: i })
}

// How many digits each of sixteen ops has that take so many bytes, if it is one number for all, at most four. A guess, which no answer rests on.
fn digits_of(bytes: usize) -> Option<usize> {
    match bytes {
        32 => Some(1),
        48 => Some(2),
        64 => Some(3),
        80 => Some(4),
        _ => None,
    }
}

// The ops after a stretch that are like it, if it tells how many digits they have.
fn run_on(text: &[u8], seen: Reached, digits: Option<usize>, out: &mut [u32]) -> Reached
    requires { (seen.at ≤ length text.now) × (seen.n * 2 ≤ seen.at) }
    ensures { Onward text.now seen.stage seen.n seen.at out.old result.stage result.n result.at out.new }
{
    match (digits, seen.stage) {
        (Some(digits), Stage::Good) => alike(text, seen.at, seen.n, digits, out),
        _ => seen,
    }
}

// Reads a text once: whether it is a valid mapped CIGAR, and how many ops it has, which go to out as far as there is room.
pub fn read_ops(text: &[u8], out: &mut [u32]) -> Option<usize>
    ensures { ReadTo text.now out.old result out.new }
{
    let mut seen = Reached {
        stage: Stage::Start,
        n: 0,
        at: 0,
    };
    while seen.at < text.len() {
        let after = stretch(text, seen, out)?;
        seen = run_on(text, after, digits_of(after.at - seen.at), out);
    }
    if seen.stage.accept() {
        Some(seen.n)
    } else {
        None
    }
}
