// Ops, and a record's ops.
ghost use Rattle.std.specs.Prelude.{◌≡◌, ◌%◌};
ghost use Rattle.answers.specs.Settled.{Settled};
ghost use Rattle.answers.specs.Answers.{tell_count};
ghost use Rattle.sam.specs.Op.{len_of, code_of, is_ref, is_query};
ghost use Rattle.ops.specs.Ops.{is_read};
ghost use Rattle.kinds.specs.Kinds.{code_of_kind, kind_of, from_op_type, tell_kind};
ghost use Rattle.copied_ops.specs.Copied.{get_ops};
ghost use Rattle.border.specs.Border.{count_of, found_of, across};
ghost use Rattle.exports.specs.Ops.{char_of, op_answer, op_or_none};

use answers::Answer;
use border::{ToldCount, ToldFound};
use kinds::{CigarKind, CigarOp};

#[unsafe(no_mangle)]
pub extern "C" fn cigar_get_cigar_ops(rec: &[u8], out: &mut [u32]) -> ToldCount
    ensures { Settled (across count_of tell_count (get_ops rec.now out.old)) result out.new }
{
    copied_ops::get_cigar_ops(rec, out).into()
}

#[unsafe(no_mangle)]
pub extern "C" fn cigar_consumes_ref(code: u32) -> bool
    ensures { result ≡ is_ref (code % 16) }
{
    ops::consumes_ref(code)
}

#[unsafe(no_mangle)]
pub extern "C" fn cigar_consumes_query(code: u32) -> bool
    ensures { result ≡ is_query (code % 16) }
{
    ops::consumes_query(code)
}

#[unsafe(no_mangle)]
pub extern "C" fn cigar_consumes_read(code: u32) -> bool
    ensures { result ≡ is_read code }
{
    ops::consumes_read(code)
}

#[unsafe(no_mangle)]
pub extern "C" fn cigar_from_op_type(code: u32) -> ToldFound
    ensures { result ≡ found_of (tell_kind (from_op_type code)) }
{
    CigarKind::from_op_type(code)
        .map(|k| u64::from(k.code()))
        .into()
}

// A kind is given by its code; there is none above 8.
#[unsafe(no_mangle)]
pub extern "C" fn cigar_as_char(kind: u32) -> ToldFound
    ensures { result ≡ found_of (char_of (from_op_type kind)) }
{
    CigarKind::from_op_type(kind)
        .map(|k| u64::from(k.as_char()))
        .into()
}

#[unsafe(no_mangle)]
pub extern "C" fn cigar_op_new(kind: u32, length: u32) -> ToldFound
    ensures { result ≡ found_of (op_answer (from_op_type kind) length) }
{
    match CigarKind::from_op_type(kind) {
        Some(k) => told_op(CigarOp::new(k, length)),
        None => ToldFound::from(None),
    }
}

// No `From`: both types are other crates'.
fn told_op(answer: Answer<CigarOp>) -> ToldFound
    ensures { result ≡ found_of (op_or_none answer) }
{
    answer.map(|op| Some(u64::from(op.raw()))).into()
}

#[unsafe(no_mangle)]
pub extern "C" fn cigar_op_kind(op: u32) -> u32
    ensures { result ≡ code_of_kind (kind_of (code_of op)) }
{
    let kind = CigarOp::from_raw(op).kind();
    kind.code()
}

#[unsafe(no_mangle)]
pub extern "C" fn cigar_op_len(op: u32) -> u32
    ensures { result ≡ len_of op }
{
    CigarOp::from_raw(op).len()
}

#[unsafe(no_mangle)]
pub extern "C" fn cigar_op_consumes_query(op: u32) -> bool
    ensures { result ≡ is_query (code_of op) }
{
    CigarOp::from_raw(op).consumes_query()
}

#[unsafe(no_mangle)]
pub extern "C" fn cigar_op_consumes_ref(op: u32) -> bool
    ensures { result ≡ is_ref (code_of op) }
{
    CigarOp::from_raw(op).consumes_ref()
}
