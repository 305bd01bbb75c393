// Document 01, module 5: the strict reader of CIGAR text.
#![tactic(auto)]

ghost use Rattle.std.specs.Prelude.{◌≡◌, ◌*◌, ◌≤◌, length, take};
ghost use Rattle.lists.specs.Lists.{splice};
ghost use Rattle.answers.specs.Settled.{Settled};
ghost use Rattle.oplist.specs.Ops.{most_ops};
ghost use Rattle.parsed_rules.specs.Parsed.{parsed};

use answers::{Answer, Refusal};

// Copies the first n ops, two at a time: of a loop that copies one at a time the compiler makes a call of C's `memcpy`, which the freestanding archive may not ask for.
fn copy(ops: &[u32], n: usize, out: &mut [u32])
    requires { (n ≤ length ops.now) × (n ≤ length out.old) }
    ensures { out.new ≡ splice out.old 0 (take n ops.now) }
{
    for k in 0..n / 2 {
        out[2 * k] = ops[2 * k];
        out[2 * k + 1] = ops[2 * k + 1];
    }
    if n % 2 == 1 {
        out[n - 1] = ops[n - 1];
    }
}

// The ops of a text, read once, by way of memory that holds them whatever the text is.
fn by_copy(text: &[u8], ops: &mut [u32], out: &mut [u32]) -> Answer<u64>
    requires { (length text.now ≤ length ops.old * 2) × (length ops.old ≤ most_ops) }
    ensures { Settled (parsed text.now out.old) result out.new }
{
    let Some(n) = read_text::read_ops(text, ops) else {
        return Err(Refusal::NotACigar);
    };
    if out.len() < n {
        return Err(Refusal::NoRoom);
    }
    copy(ops, n, out);
    Ok(n as u64)
}

// The ops of a text, which is read twice: to count, then to write.
fn in_two(text: &[u8], out: &mut [u32]) -> Answer<u64>
    ensures { Settled (parsed text.now out.old) result out.new }
{
    let mut none = [0u32; 1];
    let Some(n) = read_text::read_ops(text, &mut none) else {
        return Err(Refusal::NotACigar);
    };
    if oplist::MOST_OPS < n {
        return Err(Refusal::TooManyOps);
    }
    if out.len() < n {
        return Err(Refusal::NoRoom);
    }
    let Some(written) = read_text::read_ops(text, out) else {
        return Err(Refusal::NotACigar);
    };
    Ok(written as u64)
}

// The ops of a text of at most 2 N bytes, by way of memory of this function's own. A function of its own, since memory is filled with 0 where a function is entered, much of it by a call
// of C's `memset`.
fn by_memory<const N: usize>(text: &[u8], out: &mut [u32]) -> Answer<u64>
    requires { (length text.now ≤ N * 2) × (N ≤ most_ops) }
    ensures { Settled (parsed text.now out.old) result out.new }
{
    let mut ops = [16u32; N];
    by_copy(text, &mut ops, out)
}

// The ops that a text stands for, in the first places of out. A text of at most 1,024 bytes is read once, into at most 2 KiB of the stack. Refusals
// 5, 3 and 6.
pub fn parse_cigar_string_ops(text: &[u8], out: &mut [u32]) -> Answer<u64>
    ensures { Settled (parsed text.now out.old) result out.new }
{
    if text.len() <= 64 {
        return by_memory::<32>(text, out);
    }
    if text.len() <= 1024 {
        return by_memory::<512>(text, out);
    }
    in_two(text, out)
}
