// Records of 96 bytes.

// A number stored at four bytes, the lowest first; the record as it is where they would end past it.
pub fn with_word(record: [u8; 96], at: usize, n: u32) -> [u8; 96] {
    if 92 < at {
        return record;
    }
    let mut r = record;
    r[at..at + 4].copy_from_slice(&n.to_le_bytes());
    r
}

// A record without ops whose name has four bytes: there is room for 15 ops.
pub fn new(pos: u32, flags: u32, n_cigar_op: u32) -> [u8; 96] {
    let r = with_word([0u8; 96], 4, pos);
    let s = with_word(r, 8, 4);
    with_word(s, 12, n_cigar_op % 65536 + 65536 * (flags % 65536))
}

// Op i stored; the record as it is past its room.
fn with_op(record: [u8; 96], i: usize, op: u32) -> [u8; 96] {
    if 14 < i {
        return record;
    }
    with_word(record, 36 + 4 * i, op)
}

// Nine ops from op i on, of one code and of 2^31 bases in all; the record as it is past its room.
pub fn with_run(record: [u8; 96], i: usize, code: u32) -> [u8; 96] {
    if 6 < i {
        return record;
    }
    let longest = 4294967280 + code % 16;
    let two = with_op(with_op(record, i, longest), i + 1, longest);
    let four = with_op(with_op(two, i + 2, longest), i + 3, longest);
    let six = with_op(with_op(four, i + 4, longest), i + 5, longest);
    let eight = with_op(with_op(six, i + 6, longest), i + 7, longest);
    with_op(eight, i + 8, 128 + code % 16)
}

// The first n bytes; none where there are fewer.
pub fn cut(bytes: &[u8], n: usize) -> &[u8] {
    if bytes.len() < n {
        return &bytes[..0];
    }
    &bytes[..n]
}
