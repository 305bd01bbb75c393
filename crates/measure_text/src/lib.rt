// Document 01, module 5: the measuring pass of the strict reader, and the ops of a text written. An inner crate of the overhang by text.
#![tactic(auto)]

ghost use Rattle.std.specs.Prelude.{◌≡◌, ◌+◌, ◌≤◌, ◌<◌, min, length, take};
ghost use Rattle.lists.specs.Lists.{splice};
ghost use Rattle.text_rules.specs.Text.{text_ops};
ghost use Rattle.parsed_rules.specs.Parsed.{measured_text};
ghost use Rattle.validity.specs.InnerStages.{code_class};
ghost use Rattle.measure_text.specs.InnerPass.{ref_bases_of, took_of, ending_of};

use parsed_rules::Measured;
use validity::Stage;

// The ops so far: their stage, how many they are, and their reference bases, at most 2^31 - 1.
#[derive(Clone, Copy)]
pub struct SoFar {
    pub stage: Stage,
    pub n: u64,
    pub refs: u32,
}

// The reference bases of an op.
fn ref_bases(code: u32, len: u32) -> u32
    requires { code < 16 }
    ensures { (result ≡ ref_bases_of (code_class code) len) × (result ≤ len) }
{
    if ops::consumes_ref(code) { len } else { 0 }
}

// The reference bases with an op more.
fn further(refs: u32, code: u32, len: u32) -> u32
    requires { (refs ≤ 2147483647) × (len ≤ 268435455) × (code < 16) }
    ensures { result ≡ min (refs + ref_bases_of (code_class code) len) 2147483647 }
{
    (refs + ref_bases(code, len)).min(2147483647)
}

// One op more.
fn take_op(seen: SoFar, len: u32, code: u32) -> Option<SoFar>
    requires { (seen.n < 18446744073709551615) × (seen.refs ≤ 2147483647) × (len ≤ 268435455) × (code < 16) }
    ensures { result ≡ took_of seen len (code_class code) }
{
    let stage = seen.stage.step(code);
    if stage.is_wrong() {
        return None;
    }
    Some(SoFar {
        stage,
        n: seen.n + 1,
        refs: further(seen.refs, code, len),
    })
}

fn ending(seen: SoFar) -> Option<Measured>
    requires { seen.refs ≤ 2147483647 }
    ensures { result ≡ ending_of seen }
{
    if seen.stage.accept() {
        return Some(Measured {
            ops: seen.n,
            refs: signed::of_bits(seen.refs),
        });
    }
    None
}

// The measuring pass of the strict reader: it writes nothing, and takes text of any length.
pub fn measure(text: &[u8]) -> Option<Measured>
    ensures { result ≡ measured_text text.now }
{
    let mut seen = SoFar {
        stage: Stage::Start,
        n: 0,
        refs: 0,
    };
    let mut i: usize = 0;
    while i < text.len() {
        let token = tokens::token_at(tokens::short_token(text, i), text, i)?;
        seen = take_op(seen, token.len, token.code)?;
        i = token.next;
    }
    ending(seen)
}

// Writes the ops of a text, up to its end or its first wrong byte, as far as there is room.
pub fn write_ops(text: &[u8], out: &mut [u32])
    ensures { out.new ≡ splice out.old 0 (take (length out.old) (text_ops text.now)) }
{
    let mut at: usize = 0;
    let mut i: usize = 0;
    while i < text.len() {
        let Some(token) = tokens::token_at(tokens::short_token(text, i), text, i) else {
            return;
        };
        if out.len() <= at {
            return;
        }
        out[at] = token.len * 16 + token.code;
        at += 1;
        i = token.next;
    }
}
