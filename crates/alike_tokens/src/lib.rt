// Document 01, module 5: an op of a text whose number of digits is foreseen. An inner crate of the strict reader.
#![tactic(auto)]

ghost use Rattle.std.specs.Prelude.{◌≡◌, true, ◌+◌, ◌≤◌, ◌<◌, length};
ghost use Rattle.tokens.specs.InnerToken.{ShortAt, Lettered};

use tokens::Token;

// A digit other than 0.
fn is_first(b: u8) -> bool
    ensures { result ≡ true → (48 < b) × (b ≤ 57) }
{
    matches!(b, b'1'..=b'9')
}

// An op whose number was read, by its letter.
fn lettered(len: u32, letter: u8, next: usize) -> Option<Token>
    ensures { Lettered len letter next result }
{
    let code = letters::code_at(letter);
    if 8 < code {
        return None;
    }
    Some(Token { len, code, next })
}

// The op at a place of a text if it has so many digits, one, two, three or four, of which the first is no 0. Each byte is read where the one before it was right:
// so the place after the op doesn't wait for its bytes, which pays where the number of digits is foreseen.
pub fn alike_token(text: &[u8], at: usize, digits: usize) -> Option<Token>
    requires { at + 5 ≤ length text.now }
    ensures { ShortAt text.now at result }
{
    let first = text[at];
    if !is_first(first) {
        return None;
    }
    let a = first as u32;
    let second = text[at + 1];
    if digits == 1 {
        return lettered(a - 48, second, at + 2);
    }
    if !second.is_ascii_digit() {
        return None;
    }
    let b = a * 10 + second as u32;
    let third = text[at + 2];
    if digits == 2 {
        return lettered(b - 528, third, at + 3);
    }
    if !third.is_ascii_digit() {
        return None;
    }
    let c = b * 10 + third as u32;
    let fourth = text[at + 3];
    if digits == 3 {
        return lettered(c - 5328, fourth, at + 4);
    }
    if !fourth.is_ascii_digit() {
        return None;
    }
    let d = c * 10 + fourth as u32;
    lettered(d - 53328, text[at + 4], at + 5)
}
