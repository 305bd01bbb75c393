// Little-endian numbers at a place of a record's bytes. An inner crate: its callers have tested that the bytes are there.
#![tactic(auto)]

ghost use Rattle.std.specs.Prelude.{◌≡◌, ◌+◌, ◌≤◌, ◌<◌, length};
ghost use Rattle.sam.specs.Record.{byte_at, le16, le32, int32};

pub fn u8_at(b: &[u8], at: usize) -> u32
    requires { at < length b.now }
    ensures { (result ≡ byte_at b.now at) × (result < 256) }
{
    u32::from(b[at])
}

pub fn u16_at(b: &[u8], at: usize) -> u32
    requires { at + 2 ≤ length b.now }
    ensures { (result ≡ le16 b.now at) × (result < 65536) }
{
    u32::from(u16::from_le_bytes([b[at], b[at + 1]]))
}

pub fn u32_at(b: &[u8], at: usize) -> u32
    requires { at + 4 ≤ length b.now }
    ensures { result ≡ le32 b.now at }
{
    u32::from_le_bytes([b[at], b[at + 1], b[at + 2], b[at + 3]])
}

pub fn i32_at(b: &[u8], at: usize) -> i32
    requires { at + 4 ≤ length b.now }
    ensures { result ≡ int32 b.now at }
{
    signed::of_bits(u32_at(b, at))
}
