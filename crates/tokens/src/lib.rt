// Document 01, module 5: an op of a text, read from a place on. An inner crate of the strict reader.
#![tactic(auto)]

ghost use Rattle.std.specs.Prelude.{◌≡◌, cond, ◌+◌, ◌≤◌, ◌<◌, length};
ghost use Rattle.tokens.specs.InnerToken.{TokenAt, ShortAt};

// An op of a text: its length, its code, and the place after its letter. Places are counted in the whole text, as the contracts above speak of one text: a slice of the rest would have to be
// counted back.
#[derive(Clone, Copy)]
pub struct Token {
    pub len: u32,
    pub code: u32,
    pub next: usize,
}

// The op at a place of a text, digit by digit.
fn long_token(text: &[u8], at: usize) -> Option<Token>
    requires { at < length text.now }
    ensures { TokenAt text.now at result }
{
    let mut num: u32 = 0;
    for i in at..text.len() {
        let b = text[i];
        if !b.is_ascii_digit() {
            let code = letters::code_at(b);
            if num == 0 {
                return None;
            }
            if 8 < code {
                return None;
            }
            return Some(Token {
                len: num,
                code,
                next: i + 1,
            });
        }
        num = num * 10 + (b - b'0') as u32;
        if 268435455 < num {
            return None;
        }
    }
    None
}

// The letter after one digit, after two or after three.
fn letter_of(two: bool, three: bool, a: u8, b: u8, c: u8) -> u8
    ensures { result ≡ cond two (cond three c b) a }
{
    if !two {
        return a;
    }
    if !three {
        return b;
    }
    c
}

// How many bytes one digit and a letter are, or two, or three.
fn width_of(two: bool, three: bool) -> usize
    ensures { (result ≡ cond two (cond three 4 3) 2) × (result ≤ 4) }
{
    if !two {
        return 2;
    }
    if !three {
        return 3;
    }
    4
}

// The op at a place of a text if it has at most three digits and four bytes stand there: without a branch on how many digits.
pub fn short_token(text: &[u8], at: usize) -> Option<Token>
    requires { at < length text.now }
    ensures { ShortAt text.now at result }
{
    if text.len() - at < 4 {
        return None;
    }
    let first = text[at];
    if !first.is_ascii_digit() {
        return None;
    }
    let second = text[at + 1];
    let third = text[at + 2];
    let fourth = text[at + 3];
    let two = second.is_ascii_digit();
    let three = third.is_ascii_digit();
    let a = first as u32;
    let b = a * 10 + second as u32;
    let c = b * 10 + third as u32;
    let len = if two {
        if three { c - 5328 } else { b - 528 }
    } else {
        a - 48
    };
    let code = letters::code_at(letter_of(two, three, second, third, fourth));
    if len == 0 {
        return None;
    }
    if 8 < code {
        return None;
    }
    Some(Token {
        len,
        code,
        next: at + width_of(two, three),
    })
}

// The op at a place of a text, digits and a letter, of which the short form may be known.
pub fn token_at(short: Option<Token>, text: &[u8], at: usize) -> Option<Token>
    requires { (at < length text.now) × ShortAt text.now at short }
    ensures { TokenAt text.now at result }
{
    if let Some(token) = short {
        return Some(token);
    }
    long_token(text, at)
}
