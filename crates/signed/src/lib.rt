// 32-bit signed numbers: two's complement, checked and saturating sums. No other crate does signed arithmetic.
#![tactic(auto)]

ghost use Rattle.std.specs.Prelude.{◌≡◌, ◌<◌, ◌+ℤ◌, ◌-ℤ◌};
ghost use Rattle.signed.specs.Equal.{eqℤ};
ghost use Rattle.signed.specs.Whole.{twos32, twos64, bits32, raised, natural, checked, clamp32};

// x + 2^31: the whole range of an i32 as an unsigned number.
pub fn raise(x: i32) -> u64
    ensures { (result ≡ raised x) × (result < 4294967296) }
{
    (i64::from(x) + 2147483648) as u64
}

// x where it is not negative, else 0.
pub fn natural_of(x: i32) -> u64
    ensures { (result ≡ natural x) × (result < 2147483648) }
{
    natural64(i64::from(x))
}

// The same of 64 bits.
pub fn natural64(x: i64) -> u64
    ensures { result ≡ natural x }
{
    if x < 0 { 0 } else { x as u64 }
}

// The number that 32 bits mean in two's complement.
pub fn of_bits(n: u32) -> i32
    ensures { result ≡ twos32 n }
{
    n.cast_signed()
}

// The 64 bits of a number in two's complement.
pub fn bits64(x: i32) -> u64
    ensures { result ≡ twos64 x }
{
    i64::from(x).cast_unsigned()
}

// The 32 bits of a number in two's complement.
pub fn bits32(x: i32) -> u32
    ensures { result ≡ bits32 x }
{
    x.cast_unsigned()
}

// a + b, where an i32 holds it.
pub fn checked_add(a: i32, b: i32) -> Option<i32>
    ensures { result ≡ checked (a +ℤ b) }
{
    a.checked_add(b)
}

// a - b, where an i32 holds it.
pub fn checked_sub(a: i32, b: i32) -> Option<i32>
    ensures { result ≡ checked (a -ℤ b) }
{
    a.checked_sub(b)
}

// a + b, or the nearer end of the range.
pub fn saturating_add(a: i32, b: i32) -> i32
    ensures { result ≡ clamp32 (a +ℤ b) }
{
    a.saturating_add(b)
}

// a - b, or the nearer end of the range.
pub fn saturating_sub(a: i32, b: i32) -> i32
    ensures { result ≡ clamp32 (a -ℤ b) }
{
    a.saturating_sub(b)
}

// Whether two numbers are equal.
pub fn same(a: i32, b: i32) -> bool
    ensures { result ≡ eqℤ a b }
{
    a == b
}
