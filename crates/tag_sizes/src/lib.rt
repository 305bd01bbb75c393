// Document 02, item 1: the sizes of tags, by their types. An inner crate of the reader of a record's true op list.
// Here 0 says that there is no size, and no `Option` does: so does `tag_size` of the definitions (sam, specs/Tags), which each of these equals.
#![tactic(auto)]

ghost use Rattle.std.specs.Prelude.{◌≡◌, ◌+◌, ◌≤◌, ◌<◌, length, drop};
ghost use Rattle.sam.specs.Tags.{number_size, to_nul, array_size, value_size, tag_size};

// The bytes of a number, by its type; 0 for any other type.
#[tactic(auto, unfolding(sam::specs::Tags::number_size))]
fn number_size(kind: u8) -> u64
    ensures { (result ≡ number_size kind) × (result ≤ 4) }
{
    match kind {
        b'c' | b'C' => 1,
        b's' | b'S' => 2,
        b'i' | b'I' | b'f' => 4,
        _ => 0,
    }
}

// The bytes from a place to the first NUL, with it; one more than there are where there is none.
fn to_nul(b: &[u8], at: usize) -> u64
    requires { (0 < at) × (at ≤ length b.now) }
    ensures { result ≡ to_nul (drop at b.now) }
{
    let text = &b[at..];
    let before = text
        .iter()
        .position(|byte| *byte == 0)
        .unwrap_or(text.len());
    before as u64 + 1
}

// The bytes of an array at a place, with its type and count; 0 where these overrun, and for a type that no array has.
fn array_size(b: &[u8], at: usize) -> u64
    requires { at ≤ length b.now }
    ensures { result ≡ array_size (drop at b.now) }
{
    if b.len() - at < 5 {
        return 0;
    }
    let width = number_size(b[at]);
    if width == 0 {
        return 0;
    }
    5 + width * u64::from(little_endian::u32_at(b, at + 1))
}

// The bytes of a value of a type at a place; 0 for a type that is not listed.
#[tactic(auto, unfolding(sam::specs::Tags::value_size))]
fn value_size(b: &[u8], kind: u8, at: usize) -> u64
    requires { (0 < at) × (at ≤ length b.now) }
    ensures { result ≡ value_size kind (drop at b.now) }
{
    match kind {
        b'A' => 1,
        b'Z' | b'H' => to_nul(b, at),
        b'B' => array_size(b, at),
        _ => number_size(kind),
    }
}

// The bytes of the tag at a place; 0 where it overruns, and for a type that is not listed.
pub fn tag_size(b: &[u8], at: usize) -> usize
    requires { at ≤ length b.now }
    ensures { (result ≡ tag_size (drop at b.now)) × (at + result ≤ length b.now) }
{
    if b.len() - at < 3 {
        return 0;
    }
    let size = value_size(b, b[at + 2], at + 3);
    if size == 0 {
        return 0;
    }
    if ((b.len() - at - 3) as u64) < size {
        return 0;
    }
    3 + size as usize
}
