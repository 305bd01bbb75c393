// Document 01, module 4: the text of a record's ops, in lent memory.
#![tactic(auto)]

ghost use Rattle.std.specs.Prelude.{◌≡◌, ◌+◌, ◌≤◌, length};
ghost use Rattle.std.proofs.lemmas.List.Edits.{sets};
ghost use Rattle.answers.specs.Settled.{Settled};
ghost use Rattle.print_rules.specs.Text.{op_text, text_of, printed_ops, printed};
ghost use Rattle.print_rules.specs.Inner.{room_of};

use answers::{Answer, Refusal};
use oplist::OpList;

// Puts an op's text into out from index at, and answers the index after it.
fn put_op(op: u32, out: &mut [u8], at: usize) -> usize
    requires { at + length (op_text op) ≤ length out.old }
    ensures value { result ≡ at + length (op_text op) }
    ensures out_after { out.new ≡ sets out.old at (op_text op) }
{
    let n = (op / 16) as u64;
    let k = decimal::width(n);
    decimal::put_digits(n, k, out, at);
    let e = at + k;
    let named = kinds::named(op % 16);
    out[e] = named.letter;
    e + 1
}

// The bytes of the text, or none where a code has no letter: the walk that measures.
fn room_for<L: OpList>(list: L) -> Option<usize>
    ensures { result ≡ room_of (L.ops list) }
{
    let mut n: usize = 0;
    for i in 0..list.count() {
        let op = list.op(i);
        if 8 < op % 16 {
            return None;
        }
        n += decimal::width((op / 16) as u64) + 1;
    }
    Some(n)
}

// The walk that writes.
fn put_text<L: OpList>(list: L, out: &mut [u8])
    requires { length (text_of (L.ops list)) ≤ length out.old }
    ensures { out.new ≡ sets out.old 0 (text_of (L.ops list)) }
{
    let mut at: usize = 0;
    for i in 0..list.count() {
        at = put_op(list.op(i), out, at);
    }
}

// The text of an op list, in the first places of out. Refusals 7 and 6.
pub fn print_ops<L: OpList>(list: L, out: &mut [u8]) -> Answer<u64>
    ensures { Settled (printed_ops (L.ops list) out.old) result out.new }
{
    let n = room_for(list).ok_or(Refusal::BadCode)?;
    if out.len() < n {
        return Err(Refusal::NoRoom);
    }
    put_text(list, out);
    Ok(n as u64)
}

// The text of a record's ops, in the first places of out. Refusals 1, 7 and 6.
pub fn cigar_to_bytes_into(bam: &[u8], out: &mut [u8]) -> Answer<u64>
    ensures { Settled (printed bam.now out.old) result out.new }
{
    if bam.len() < 32 {
        return Err(Refusal::ShortRecord);
    }
    print_ops(oplist::of_record(bam), out)
}
