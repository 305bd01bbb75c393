// Numbers and words, put into lent memory from a place on; each call answers the place behind what it put. An inner crate.
#![tactic(auto)]

ghost use Rattle.std.specs.Prelude.{◌+◌, ◌≤◌, length, [], ◌∷◌};
ghost use Rattle.decimal.specs.Decimal.{decimal};
ghost use Rattle.put_text.specs.Puts.{Put, sign_of, signed_decimal};

// n in decimal.
pub fn put_number(n: u64, out: &mut [u8], at: usize) -> usize
    requires { at + 20 ≤ length out.old }
    ensures put { Put out.old at (decimal n) result out.new }
    ensures upper_bound { result ≤ at + 20 }
{
    let k = decimal::width(n);
    decimal::put_digits(n, k, out, at);
    at + k
}

// A byte.
pub fn put_byte(b: u8, out: &mut [u8], at: usize) -> usize
    requires { at + 1 ≤ length out.old }
    ensures put { Put out.old at (b ∷ []) result out.new }
    ensures upper_bound { result ≤ at + 1 }
{
    out[at] = b;
    at + 1
}

// A tab, and n in decimal.
pub fn put_field(n: u64, out: &mut [u8], at: usize) -> usize
    requires { at + 21 ≤ length out.old }
    ensures put { Put out.old at (9 ∷ decimal n) result out.new }
    ensures upper_bound { result ≤ at + 21 }
{
    let from = put_byte(b'\t', out, at);
    put_number(n, out, from)
}

// A minus where z is negative; the place behind it.
fn put_sign(z: i32, out: &mut [u8], at: usize) -> usize
    requires { at + 1 ≤ length out.old }
    ensures put { Put out.old at (sign_of z) result out.new }
    ensures upper_bound { result ≤ at + 1 }
{
    if z < 0 {
        return put_byte(b'-', out, at);
    }
    at
}

// A tab, and z in decimal.
pub fn put_signed(z: i32, out: &mut [u8], at: usize) -> usize
    requires { at + 22 ≤ length out.old }
    ensures put { Put out.old at (9 ∷ signed_decimal z) result out.new }
    ensures upper_bound { result ≤ at + 22 }
{
    let from = put_byte(b'\t', out, at);
    let digits = put_sign(z, out, from);
    put_number(u64::from(z.unsigned_abs()), out, digits)
}

// The bytes of a word.
pub fn put_bytes(word: &[u8], out: &mut [u8], at: usize) -> usize
    requires { at + length word.now ≤ length out.old }
    ensures { Put out.old at word.now result out.new }
{
    let end = at + word.len();
    out[at..end].copy_from_slice(word);
    end
}
