// Document 01, module 2: what ops consume, and their lengths.
#![tactic(auto)]

ghost use Rattle.std.specs.Prelude.{◌≡◌, ◌==◌, ◌/◌, ◌%◌, ◌^◌, ◌<◌};
ghost use Rattle.sam.specs.Op.{len_of, is_ref, is_query, ref_len, query_len};
ghost use Rattle.ops.specs.Ops.{is_read, read_len, is_clip};

// Whether a bit of a mask is set.
fn has_bit(mask: u32, bit: u32) -> bool
    requires { bit < 32 }
    ensures { result ≡ (mask / 2 ^ bit % 2 == 1) }
{
    (mask >> bit) % 2 == 1
}

// Whether an op or a code, taken modulo 16, consumes the reference: bit c of 0x018d is code c's, and the mask has it twice.
pub fn consumes_ref(op: u32) -> bool
    ensures { result ≡ is_ref (op % 16) }
{
    has_bit(0x018d018d, op % 32)
}

// Whether an op or a code, taken modulo 16, consumes the query: bit c of 0x0193 is code c's, and the mask has it twice.
pub fn consumes_query(op: u32) -> bool
    ensures { result ≡ is_query (op % 16) }
{
    has_bit(0x01930193, op % 32)
}

// Whether a code, taken whole, is M, I, = or X: bit c of 387 is code c's.
pub fn consumes_read(code: u32) -> bool
    ensures { result ≡ is_read code }
{
    code <= 8 && has_bit(387, code)
}

// Whether an op is S or H: the codes 4 and 5.
pub fn is_clip(op: u32) -> bool
    ensures { result ≡ is_clip (op % 16) }
{
    op % 16 / 2 == 2
}

// The bases of an op.
pub fn length_of(op: u32) -> u64
    ensures { (result ≡ len_of op) × (result < 268435456) }
{
    u64::from(op / 16)
}

// The reference bases of an op.
#[tactic(auto, unfolding(sam::specs::Op::ref_len))]
pub fn ref_len(op: u32) -> u64
    ensures { (result ≡ ref_len op) × (result < 268435456) }
{
    if consumes_ref(op) { length_of(op) } else { 0 }
}

// The query bases of an op.
#[tactic(auto, unfolding(sam::specs::Op::query_len))]
pub fn query_len(op: u32) -> u64
    ensures { (result ≡ query_len op) × (result < 268435456) }
{
    if consumes_query(op) { length_of(op) } else { 0 }
}

// The read bases of an op: those of the query without soft clips.
#[tactic(auto, unfolding(crate::specs::Ops::read_len))]
pub fn read_len(op: u32) -> u64
    ensures { (result ≡ read_len op) × (result < 268435456) }
{
    if consumes_read(op % 16) {
        length_of(op)
    } else {
        0
    }
}
