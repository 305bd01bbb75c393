// Document 01, module 2: ops that lie in a record, copied into lent memory.
#![tactic(auto)]

ghost use Rattle.answers.specs.Settled.{Settled};
ghost use Rattle.copied_ops.specs.Copied.{copied_ops, get_ops};

use answers::{Answer, Refusal};
use oplist::OpList;

// The ops of a list, in the first places of out. Refusal 6.
pub fn copy_ops<L: OpList>(list: L, out: &mut [u32]) -> Answer<u64>
    ensures { Settled (copied_ops (L.ops list) out.old) result out.new }
{
    let n = list.count();
    if out.len() < n {
        return Err(Refusal::NoRoom);
    }
    oplist::copy(list, 0, n, out, 0);
    Ok(n as u64)
}

// A record's ops, in the first places of out. Refusals 1 and 6.
pub fn get_cigar_ops(bam: &[u8], out: &mut [u32]) -> Answer<u64>
    ensures { Settled (get_ops bam.now out.old) result out.new }
{
    if bam.len() < 32 {
        return Err(Refusal::ShortRecord);
    }
    copy_ops(oplist::of_record(bam), out)
}
