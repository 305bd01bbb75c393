// Document 01, module 6: the mate's unclipped 5' end from text. Reads any bytes, refuses none; each step saturates.
#![tactic(auto)]

ghost use Rattle.std.specs.Prelude.{◌≡◌, ◌≤◌, ◌<◌, pos, length, unwrap_or};
ghost use Rattle.sam.specs.Text.{is_digit};
ghost use Rattle.mate_rules.specs.Run.{counts_as, push_of};
ghost use Rattle.mate_rules.specs.Pieces.{mate_leading, mate_reference, mate_trailing, capped};
ghost use Rattle.mate_text.specs.Mate.{mate_start, mate_end, saturated_one_based, mate_unclipped, mate_unclipped1};
ghost use Rattle.mate_text.specs.InnerPiece.{trail_piece, GoesOn};

use answers::{Pos0, Pos1};

// The digits so far, then one more byte; as they were where the byte is no digit. A number above 2^31 - 1 counts 0, however many digits follow: it is held at 2^31.
fn pushed(x: u64, b: u8) -> u64
    ensures { result ≡ push_of x b }
{
    if !b.is_ascii_digit() {
        return x;
    }
    if 214748364 < x {
        return 2147483648;
    }
    x * 10 + (b - b'0') as u64
}

// What a number counts: 0 above 2^31 - 1.
fn counted(x: u64) -> i32
    ensures { result ≡ pos (counts_as x) }
{
    if 2147483647 < x {
        return 0;
    }
    x as i32
}

// The number of the digits since the last letter.
#[derive(Clone, Copy)]
pub struct DigitRun(u64);

impl DigitRun {
    pub fn new() -> Self
        ensures { result.0 ≡ 0 }
    {
        DigitRun(0)
    }

    // Feeds one byte; answers whether it was a digit and was taken.
    pub fn push(&mut self, byte: u8) -> bool
        ensures { (result ≡ is_digit byte) × (self.new.0 ≡ push_of self.old.0 byte) }
    {
        self.0 = pushed(self.0, byte);
        byte.is_ascii_digit()
    }

    // What the run counts; the run is empty afterwards.
    pub fn take(&mut self) -> i32
        ensures { (result ≡ pos (counts_as self.old.0)) × (self.new.0 ≡ 0) }
    {
        let v = counted(self.0);
        self.0 = 0;
        v
    }
}

// The total of the leading S and H.
fn parse_leading_clips(text: &[u8]) -> i32
    ensures { result ≡ capped (mate_leading text.now) }
{
    let mut run = DigitRun::new();
    let mut clips = 0;
    for b in text {
        if !run.push(*b) {
            let number = run.take();
            if !ops::is_clip(letters::code_at(*b)) {
                return clips;
            }
            clips = signed::saturating_add(clips, number);
        }
    }
    clips
}

// The reference length, and the clips since its last letter, where there was one.
#[derive(Clone, Copy)]
struct Trail {
    refs: i32,
    clips: Option<i32>,
}

fn trail_piece(s: Trail, number: i32, letter: u8) -> Trail
    ensures { result ≡ trail_piece s number letter }
{
    let code = letters::code_at(letter);
    if ops::consumes_ref(code) {
        return Trail {
            refs: signed::saturating_add(s.refs, number),
            clips: Some(0),
        };
    }
    if !ops::is_clip(code) {
        return s;
    }
    let Some(clips) = s.clips else {
        return s;
    };
    Trail {
        clips: Some(signed::saturating_add(clips, number)),
        ..s
    }
}

// What was found of a text, and the place where the next piece begins.
#[derive(Clone, Copy)]
struct Ahead {
    found: Trail,
    at: usize,
}

// A piece was taken in, and the next one begins at a place.
fn taken(found: Trail, number: i32, letter: u8, at: usize) -> Ahead
    ensures { (result.found ≡ trail_piece found number letter) × (result.at ≡ at) }
{
    Ahead {
        found: trail_piece(found, number, letter),
        at,
    }
}

// Takes in the rest of a piece, after the digits of a run.
fn trail_rest(found: Trail, mut run: DigitRun, text: &[u8], from: usize) -> Ahead
    requires { from ≤ length text.now }
    ensures { GoesOn text.now run.0 found from result }
{
    for i in from..text.len() {
        let b = text[i];
        if !run.push(b) {
            let number = run.take();
            return taken(found, number, b, i + 1);
        }
    }
    Ahead {
        found,
        at: text.len(),
    }
}

// Takes in the piece at a place. A piece of up to two digits is taken in by itself: so nothing waits for how many there are.
fn trail_at(found: Trail, text: &[u8], at: usize) -> Ahead
    requires { at < length text.now }
    ensures { GoesOn text.now 0 found at result }
{
    let mut run = DigitRun::new();
    if text.len() - at < 3 {
        return trail_rest(found, run, &*text, at);
    }
    let a = text[at];
    let b = text[at + 1];
    let c = text[at + 2];
    if !run.push(a) {
        let number = run.take();
        return taken(found, number, a, at + 1);
    }
    if !run.push(b) {
        let number = run.take();
        return taken(found, number, b, at + 2);
    }
    if !run.push(c) {
        let number = run.take();
        return taken(found, number, c, at + 3);
    }
    trail_rest(found, run, &*text, at + 3)
}

// The reference length, and the total of the S and H after its last letter.
fn parse_ref_len_and_trailing_clips(text: &[u8]) -> Trail
    ensures { (result.refs ≡ capped (mate_reference text.now)) × (unwrap_or result.clips (pos 0) ≡ capped (mate_trailing text.now)) }
{
    let mut found = Trail {
        refs: 0,
        clips: None,
    };
    let mut i = 0;
    while i < text.len() {
        let next = trail_at(found, &*text, i);
        found = next.found;
        i = next.at;
    }
    found
}

fn unclipped_other_start(position: i32, text: &[u8]) -> i32
    ensures { result ≡ mate_start position text.now }
{
    signed::saturating_sub(position, parse_leading_clips(text))
}

// The 1 goes first: taken last, it would bring a sum that saturated below 2^31 - 1.
fn unclipped_other_end(position: i32, text: &[u8]) -> i32
    ensures { result ≡ mate_end position text.now }
{
    let t = parse_ref_len_and_trailing_clips(&*text);
    signed::saturating_add(
        signed::saturating_add(signed::saturating_sub(position, 1), t.refs),
        t.clips.unwrap_or(0),
    )
}

// A position counted from 1. It saturates, where `ends::one_based` refuses: this reader refuses nothing.
fn saturating_one_based(p: Pos0) -> Pos1
    ensures { result ≡ saturated_one_based p }
{
    Pos1(signed::saturating_add(p.0, 1))
}

// The mate's unclipped 5' position from its text: its start where it is forward, its end where it is reverse.
pub fn mate_unclipped_5prime(position: Pos0, reverse: bool, text: &[u8]) -> Pos0
    ensures { result ≡ mate_unclipped position reverse text.now }
{
    if reverse {
        return Pos0(unclipped_other_end(position.0, text));
    }
    Pos0(unclipped_other_start(position.0, text))
}

// The same, as an answer that counts from 1. Each has both scans within it: by one function for the two a call took 1 ns more.
pub fn mate_unclipped_5prime_1based(position: Pos0, reverse: bool, text: &[u8]) -> Pos1
    ensures { result ≡ mate_unclipped1 position reverse text.now }
{
    let from = saturating_one_based(position);
    if reverse {
        return Pos1(unclipped_other_end(from.0, text));
    }
    Pos1(unclipped_other_start(from.0, text))
}
