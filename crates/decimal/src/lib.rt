// Numbers in decimal, put into lent memory. An inner crate.
#![tactic(auto)]

ghost use Rattle.std.specs.Prelude.{◌≡◌, ◌+◌, ◌≤◌, length};
ghost use Rattle.std.proofs.lemmas.List.Edits.{sets};
ghost use Rattle.decimal.specs.Inner.{Width, last_digits};

// How many decimal digits n has. Most numbers have up to four, whose number no branch tells: it is hard to foresee.
pub fn width(n: u64) -> usize
    ensures { Width n result }
{
    if n < 10000 {
        return 1 + usize::from(10 <= n) + usize::from(100 <= n) + usize::from(1000 <= n);
    }
    n.ilog10() as usize + 1
}

// Puts the last k digits of n into out from index at.
pub fn put_digits(n: u64, k: usize, out: &mut [u8], at: usize)
    requires { at + k ≤ length out.old }
    ensures { out.new ≡ sets out.old at (last_digits k n) }
{
    let mut rest = n;
    for i in (at..at + k).rev() {
        out[i] = b'0' + (rest % 10) as u8;
        rest /= 10;
    }
}
