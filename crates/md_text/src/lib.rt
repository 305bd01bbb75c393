// Document 02, item 13, the text of MD: whether it is one, its numbers, and the letters that a D passes. An inner crate of `md`.
#![tactic(auto)]

ghost use Rattle.std.specs.Prelude.{◌≡◌, ◌<◌};
ghost use Rattle.md_rules.specs.Md.{next_place, well_formed};
ghost use Rattle.md_rules.specs.InnerWalk.{FigureAt, all_capital, Behind, LossAt};

use md_rules::{Figure, Place, Spot};

// More bases than 65,535 ops have.
const MOST_BASES: u64 = 17592186044416;

// ---- whether a text is MD: looked at where list and text are found to disagree

fn next_place(p: Place, b: u8) -> Place
    ensures { result ≡ next_place p b }
{
    match p {
        Place::Wants | Place::Number | Place::Letters if b.is_ascii_digit() => Place::Number,
        Place::Number if b.is_ascii_uppercase() => Place::Wants,
        Place::Number if b == b'^' => Place::Caret,
        Place::Caret | Place::Letters if b.is_ascii_uppercase() => Place::Letters,
        _ => Place::Wrong,
    }
}

pub fn well_formed(text: &[u8]) -> bool
    ensures { result ≡ well_formed text.now }
{
    let mut p = Place::Wants;
    for b in text {
        p = next_place(p, *b);
    }
    matches!(p, Place::Number)
}

// ---- numbers and letters of a text

// The number that stands at a place.
pub fn number(text: &[u8], from: usize) -> Option<Figure>
    ensures { FigureAt text.now from result }
{
    if text.len() <= from || !text[from].is_ascii_digit() {
        return None;
    }
    let mut n = u64::from(text[from] - b'0');
    for at in from + 1..text.len() {
        let b = text[at];
        if !b.is_ascii_digit() {
            return Some(Figure { n, at });
        }
        n = n * 10 + u64::from(b - b'0');
        if MOST_BASES < n {
            return None;
        }
    }
    Some(Figure { n, at: text.len() })
}

// Whether all letters are capital. Each is looked at, with no exit, so that many are compared at a time.
fn all_capital(letters: &[u8]) -> bool
    ensures { result ≡ all_capital letters.now }
{
    let mut all = true;
    for b in letters {
        all &= b.is_ascii_uppercase();
    }
    all
}

// Passes the reference bases of a D of nonzero length.
pub fn deletion(text: &[u8], s: Spot, length: u32) -> Option<Spot>
    requires { Behind text.now s.at × (0 < length) × (s.count < 1152921504606846976) }
    ensures { LossAt text.now s length result }
{
    if s.left != 0 || text.len() <= s.at || text[s.at] != b'^' {
        return None;
    }
    let from = s.at + 1;
    let letters = length as usize;
    if text.len() - from < letters {
        return None;
    }
    let to = from + letters;
    if !all_capital(&text[from..to]) {
        return None;
    }
    let f = number(text, to)?;
    Some(Spot {
        at: f.at,
        left: f.n,
        count: s.count + 1,
    })
}
