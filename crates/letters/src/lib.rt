// Document 02, item 4: one table of letters, from which both readers of text read. An inner crate.
#![tactic(auto)]

ghost use Rattle.std.specs.Prelude.{◌≡◌, ◌<◌};
ghost use Rattle.letters.specs.Letters.{entry_of};
ghost use Rattle.letters.specs.InnerRow.{row_of};

// Sixteen bytes of which none is a letter.
const NONE: u64 = 0xffff_ffff_ffff_ffff;

// At each byte the code of the op whose letter it is, 15 where it is none: 256 entries of one hexadecimal digit, sixteen to a number, the first one on the right.
const CODES: [u64; 16] = [
    NONE,
    NONE,
    NONE, // / . - , + * ) ( ' & % $ # " ! space
    0xff7f_ffff_ffff_ffff, // ? > = < ; : 9 8 7 6 5 4 3 2 1 0
    0xf30f_ff15_fff2_ffff, // O N M L K J I H G F E D C B A @
    0xffff_fff8_ffff_4ff6, // _ ^ ] \ [ Z Y X W V U T S R Q P
    NONE, // o n m l k j i h g f e d c b a `
    NONE, // DEL ~ } | { z y x w v u t s r q p
    NONE,
    NONE,
    NONE,
    NONE,
    NONE,
    NONE,
    NONE,
    NONE,
];

// The sixteen entries of a table from byte 16 n on. The places are constants: so no array is built, and the compiler makes one load of it.
#[tactic(auto, unfolding(crate::specs::InnerRow::row_of))]
fn row(codes: [u64; 16], n: u8) -> u64
    requires { n < 16 }
    ensures { result ≡ row_of codes n }
{
    match n {
        0 => codes[0],
        1 => codes[1],
        2 => codes[2],
        3 => codes[3],
        4 => codes[4],
        5 => codes[5],
        6 => codes[6],
        7 => codes[7],
        8 => codes[8],
        9 => codes[9],
        10 => codes[10],
        11 => codes[11],
        12 => codes[12],
        13 => codes[13],
        14 => codes[14],
        _ => codes[15],
    }
}

// The code of a letter; 15 for any other byte.
pub fn code_at(b: u8) -> u32
    ensures { result ≡ entry_of b }
{
    ((row(CODES, b / 16) >> (b % 16 * 4)) % 16) as u32
}
