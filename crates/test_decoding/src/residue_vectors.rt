//! `residues`: residues and packets, and what is decoded from them. `tools/reference.py residues`
//! prints the books and the rows of `DECODED`.

use crate::given_books::read_book;
use bit_reader::Bits;
use codebooks::Book;
use residues::{Residue, ResidueFault, zero_lines};
use std::alloc::Global;
use std::process::Abort;
use std::test::Fail;

/// A book of one entry without values.
const CLASS_BOOK: [u8; 10] = [66, 67, 86, 1, 0, 1, 0, 0, 0, 0];

/// One of one entry with three values of a quarter.
const QUARTERS: [u8; 19] = [
    66, 67, 86, 3, 0, 1, 0, 0, 128, 8, 0, 0, 18, 3, 0, 0, 0, 0, 0,
];

/// One of one entry, whose words name 65,535 classes.
const WIDE_BOOK: [u8; 10] = [66, 67, 86, 255, 255, 1, 0, 0, 0, 0];

/// A residue of values 0 to 4, in partitions of two; one class, with book 1 in the first pass.
const SMALL: [u8; 13] = [0, 0, 0, 4, 0, 0, 1, 0, 0, 0, 64, 4, 0];

/// The same with book 2 for its class words.
const WIDE: [u8; 13] = [0, 0, 0, 4, 0, 0, 1, 0, 0, 128, 64, 4, 0];

/// Book 0 of the reference.
const BOOK_0: [u8; 19] = [
    66, 67, 86, 2, 0, 16, 0, 0, 140, 49, 198, 24, 99, 140, 49, 198, 24, 99, 0,
];

/// Book 1 of the reference.
const BOOK_1: [u8; 23] = [
    66, 67, 86, 2, 0, 4, 0, 0, 128, 32, 132, 12, 0, 0, 137, 7, 0, 0, 137, 9, 164, 250, 104,
];

/// Book 2 of the reference.
const BOOK_2: [u8; 23] = [
    66, 67, 86, 3, 0, 8, 0, 0, 8, 33, 132, 16, 66, 68, 0, 0, 152, 120, 0, 0, 152, 88, 100,
];

/// Book 3 of the reference.
const BOOK_3: [u8; 21] = [
    66, 67, 86, 1, 0, 3, 0, 0, 132, 0, 2, 0, 0, 72, 44, 0, 0, 124, 108, 64, 62,
];

fn small_books(alloc: Global) -> Result<[Book; 3], Fail> {
    Ok([
        read_book(alloc, &CLASS_BOOK)?,
        read_book(alloc, &QUARTERS)?,
        read_book(alloc, &WIDE_BOOK)?,
    ])
}

/// How many bits are left.
fn count_left(bits: &mut Bits) -> u32 {
    for count in 0..u32::MAX {
        if bits.take(1).is_none() {
            return count;
        }
    }
    u32::MAX
}

/// A residue, a packet, and what is decoded from it: all vectors one behind the other.
struct Decoded<'a> {
    name: &'a str,
    kind: u16,
    setup: &'a [u8],
    packet: &'a [u8],
    wanted: &'a [bool],
    values: &'a [i64],
    left: u32,
}

/// Decodes a row's packet, and holds it against what is wanted.
fn compare(rt: &impl Abort, alloc: Global, books: &[Book], row: &Decoded) -> Result<(), Fail> {
    let residue = Residue::read(alloc, &mut Bits::new(row.setup), row.kind, books)?;
    let mut bits = Bits::new(row.packet);
    assert!(rt; !row.wanted.is_empty(), "{}", row.name);
    let size = row.values.len() / row.wanted.len();
    let mut vectors = zero_lines(alloc, row.wanted.len(), size)?;
    residue.decode(alloc, &mut bits, books, row.wanted, &mut vectors)?;
    let mut decoded = Vec::new(alloc);
    for vector in &vectors {
        decoded.extend_from_slice(vector.items())?;
    }
    assert_eq!(rt; decoded.as_slice(), row.values, "{}", row.name);
    assert_eq!(rt; count_left(&mut bits), row.left, "{}", row.name);
    Ok(())
}

/// Packets of a byte that are decoded by the small books.
const SMALL_DECODED: [Decoded<'static>; 6] = [
    Decoded {
        name: "in a row",
        kind: 1,
        setup: &SMALL,
        packet: &[90],
        wanted: &[true],
        values: &[16384, 16384, 16384, 16384],
        left: 4,
    },
    Decoded {
        name: "no values where no packet is",
        kind: 1,
        setup: &SMALL,
        packet: &[],
        wanted: &[true],
        values: &[0, 0, 0, 0],
        left: 0,
    },
    Decoded {
        name: "interleaved",
        kind: 2,
        setup: &SMALL,
        packet: &[90],
        wanted: &[true, false],
        values: &[16384, 16384, 16384, 16384],
        left: 4,
    },
    Decoded {
        name: "interleaved, none wanted",
        kind: 2,
        setup: &SMALL,
        packet: &[90],
        wanted: &[false, false],
        values: &[0, 0, 0, 0],
        left: 8,
    },
    Decoded {
        name: "three values spread over two places",
        kind: 0,
        setup: &SMALL,
        packet: &[90],
        wanted: &[true],
        values: &[0, 0, 0, 0],
        left: 6,
    },
    Decoded {
        name: "a word of 65,535 classes",
        kind: 1,
        setup: &WIDE,
        packet: &[90],
        wanted: &[true],
        values: &[16384, 16384, 16384, 16384],
        left: 5,
    },
];

#[test]
fn decodes_by_small_books(rt: HostRuntime) -> Result<(), Fail> {
    let alloc = rt.alloc();
    let books = small_books(alloc)?;
    for row in &SMALL_DECODED {
        compare(&rt, alloc, &books, row)?;
    }
    Ok(())
}

const DECODED: [Decoded<'static>; 12] = [
    Decoded {
        name: "in a row, the last group short, one vector not wanted",
        kind: 1,
        setup: &[
            1, 0, 0, 11, 0, 0, 1, 0, 0, 2, 64, 104, 248, 47, 16, 48, 48, 48, 48, 48, 48, 48, 48,
            48, 0,
        ],
        packet: &[
            231, 238, 231, 97, 94, 243, 95, 48, 228, 155, 72, 46, 21, 202,
        ],
        wanted: &[true, false, true],
        values: &[
            0, 1207975936, 2013315072, 4294967296, 4294967296, 4294967296, 4294967296, 65536,
            32768, 4294967296, 4294967296, 0, 0, 0, 0, 0, 0, 0, 0, 0, 0, 0, 0, 0, 0, 4294967296,
            4294967296, 65536, 2013265920, -32768, -65536, -32768, -65536, 1207992320, -16384, 0,
        ],
        left: 0,
    },
    Decoded {
        name: "spread, begins past the vector",
        kind: 0,
        setup: &[14, 0, 0, 30, 0, 0, 2, 0, 0, 0, 64, 8, 0],
        packet: &[231, 80, 7, 32],
        wanted: &[true],
        values: &[0, 0, 0, 0, 0, 0, 0, 0, 0, 0, 0, 0],
        left: 32,
    },
    Decoded {
        name: "interleaved, books in all eight passes, one of two wanted",
        kind: 2,
        setup: &[
            0, 0, 0, 12, 0, 0, 2, 0, 0, 0, 192, 255, 0, 129, 129, 0, 129, 129, 0, 1,
        ],
        packet: &[
            30, 18, 97, 123, 15, 237, 167, 225, 100, 119, 150, 255, 2, 43, 234, 142, 208, 42, 130,
            161, 117, 147, 15, 35, 55, 205, 55, 148, 197, 34,
        ],
        wanted: &[false, true],
        values: &[
            4026695680, 3221422080, 4026548224, 2013233152, 2415869952, 3221323776, 3221504000,
            4026466304, 114688, 4026466304, 2013216768, 4026761216,
        ],
        left: 125,
    },
    Decoded {
        name: "spread, sums at the limit",
        kind: 0,
        setup: &[
            0, 0, 0, 12, 0, 0, 5, 0, 0, 1, 192, 255, 255, 3, 3, 3, 3, 3, 3, 3, 3, 2, 2, 2, 2, 2, 2,
            2, 2,
        ],
        packet: &[
            8, 0, 109, 107, 26, 240, 192, 203, 214, 37, 101, 138, 172, 44, 159, 170, 7, 209, 60,
            68, 126, 51, 5, 30, 238, 249, 90, 96, 229, 97, 67, 214, 196, 59, 202, 215, 108, 0, 138,
            155,
        ],
        wanted: &[true, true],
        values: &[
            4294967296, 4294967296, 4294967296, 4294967296, 4294967296, 4294967296, 327680, 229376,
            655360, 262144, 983040, 491520, 4294967296, 4294967296, 4294967296, 4294967296,
            4294967296, 4294967296, 4294967296, 4294967296, 4294967296, 4294967296, 4294967296,
            4294967296,
        ],
        left: 41,
    },
    Decoded {
        name: "in a row, the packet ends within a partition",
        kind: 1,
        setup: &[
            0, 0, 0, 12, 0, 0, 11, 0, 0, 0, 192, 255, 129, 129, 129, 129, 129, 129, 129, 1,
        ],
        packet: &[10, 107],
        wanted: &[true],
        values: &[
            0, 0, 2013265920, 2013265920, 1207959552, 1207959552, 2013265920, 0, 0, 0, 0, 0,
        ],
        left: 0,
    },
    Decoded {
        name: "interleaved over three vectors, the packet ends within a partition",
        kind: 2,
        setup: &[
            0, 0, 0, 24, 0, 0, 11, 0, 0, 0, 192, 127, 1, 1, 1, 1, 1, 1, 1, 1,
        ],
        packet: &[95, 201, 51],
        wanted: &[true, true, false],
        values: &[
            65536, -32768, -32768, 65536, -32768, 65536, 0, 0, 32768, 32768, 32768, 131072, 32768,
            131072, 0, 0, 98304, 0, 0, 98304, 98304, 98304, 0, 0,
        ],
        left: 0,
    },
    Decoded {
        name: "spread, 2 of 2 wanted, partitions of 2 from 4 on",
        kind: 0,
        setup: &[4, 0, 0, 35, 0, 0, 1, 0, 0, 0, 0, 119, 129, 128, 129, 128, 0],
        packet: &[232, 65, 247, 69, 197, 93, 78, 159, 116, 127],
        wanted: &[true, true],
        values: &[
            0, 0, 0, 0, 1208057856, 1207910400, 1207894016, 2013184000, 0, 0, 0, 0, 2013282304,
            2013200384, 2013118464, 2013167616,
        ],
        left: 43,
    },
    Decoded {
        name: "in a row, 1 of 2 wanted, partitions of 4 from 4 on",
        kind: 1,
        setup: &[
            4, 0, 0, 23, 0, 0, 3, 0, 0, 1, 128, 94, 180, 3, 2, 2, 3, 2, 3, 1, 2,
        ],
        packet: &[
            35, 64, 116, 245, 37, 143, 108, 104, 8, 35, 137, 210, 228, 127, 30, 23, 90, 144, 188,
            67,
        ],
        wanted: &[true, false],
        values: &[
            0, 0, 0, 0, 3221422080, 1208156160, 1208254464, 2013167616, 0, 0, 0, 0, 0, 0, 0, 0, 0,
            0, 0, 0,
        ],
        left: 124,
    },
    Decoded {
        name: "interleaved, 0 of 1 wanted, partitions of 4 from 5 on",
        kind: 2,
        setup: &[
            5, 0, 0, 32, 0, 0, 3, 0, 0, 0, 64, 223, 0, 129, 128, 129, 129, 1,
        ],
        packet: &[10, 38, 246, 34, 159],
        wanted: &[false],
        values: &[0, 0, 0, 0, 0, 0, 0, 0, 0, 0],
        left: 40,
    },
    Decoded {
        name: "spread, 1 of 1 wanted, partitions of 1 from 3 on",
        kind: 0,
        setup: &[
            3, 0, 0, 32, 0, 0, 0, 0, 0, 2, 0, 158, 173, 125, 5, 6, 2, 2, 2, 4, 4, 4, 6, 6, 4, 4, 6,
            6, 0,
        ],
        packet: &[234, 225, 236, 42, 15, 158, 44, 246, 11, 117],
        wanted: &[true],
        values: &[0, 0, 0, 0, 4294967296, 0, 4294967296, 3221225472, 0, 0],
        left: 45,
    },
    Decoded {
        name: "in a row, 2 of 3 wanted, partitions of 3 from 3 on",
        kind: 1,
        setup: &[
            3, 0, 0, 42, 0, 0, 2, 0, 0, 0, 192, 55, 129, 1, 129, 128, 128, 0,
        ],
        packet: &[167, 207, 128, 101, 220],
        wanted: &[true, true, false],
        values: &[
            0, 0, 0, 2013331456, 2013396992, 2013462528, -32768, 32768, 98304, 65536, 131072,
            98304, 0, 0, 0, 0, 1207926784, 2013200384, 0, -32768, -65536, -98304, -32768, -65536,
            -98304, 0, 0, 0, 0, 0, 0, 0, 0, 0, 0, 0, 0, 0, 0,
        ],
        left: 0,
    },
    Decoded {
        name: "interleaved, 2 of 2 wanted, partitions of 4 from 5 on",
        kind: 2,
        setup: &[
            5, 0, 0, 44, 0, 0, 3, 0, 0, 1, 128, 142, 149, 2, 3, 1, 2, 1, 1, 2,
        ],
        packet: &[
            161, 231, 164, 38, 16, 142, 21, 143, 181, 158, 9, 69, 207, 232, 97, 12, 136, 121, 72,
            24,
        ],
        wanted: &[true, true],
        values: &[
            0, 0, 0, 2013265920, -65536, 2013265920, 114688, 2013184000, 1207894016, 98304, 98304,
            0, 0, -81920, 49152, 2013184000, 2013282304, 1207959552, 1207910400, 32768, 311296, 0,
        ],
        left: 88,
    },
];

#[test]
fn decodes_as_the_reference_does(rt: HostRuntime) -> Result<(), Fail> {
    let alloc = rt.alloc();
    let books = [
        read_book(alloc, &BOOK_0)?,
        read_book(alloc, &BOOK_1)?,
        read_book(alloc, &BOOK_2)?,
        read_book(alloc, &BOOK_3)?,
    ];
    for row in &DECODED {
        compare(&rt, alloc, &books, row)?;
    }
    Ok(())
}

#[test]
fn keeps_what_was_decoded_before_the_end(rt: HostRuntime) -> Result<(), Fail> {
    let alloc = rt.alloc();
    let books = small_books(alloc)?;
    // how many bits there are, and how many values are decoded of them
    for (count, decoded) in [(0, 0), (1, 0), (2, 2), (3, 2), (4, 4)] {
        let residue = Residue::read(alloc, &mut Bits::new(&SMALL), 1, &books)?;
        let mut bits = Bits::new(&[90]);
        assert!(rt; bits.take(8 - count).is_some());
        let mut vectors = zero_lines(alloc, 1, 4)?;
        residue.decode(alloc, &mut bits, &books, &[true], &mut vectors)?;
        for (place, value) in vectors[0].items().iter().enumerate() {
            let want = if place < decoded { 16384 } else { 0 };
            assert_eq!(rt; *value, want, "{count} bits, value {place}");
        }
    }
    Ok(())
}

/// What a row shows, a type, a residue, and why it is refused, if it is.
const READ: [(&str, u16, &[u8], Option<ResidueFault>); 10] = [
    (
        "an unknown type, before any bit",
        3,
        &[],
        Some(ResidueFault::Kind),
    ),
    ("the greatest type", 65535, &SMALL, Some(ResidueFault::Kind)),
    ("type 2 has the form of type 1", 2, &SMALL, None),
    ("type 0 has the form of type 1", 0, &SMALL, None),
    (
        "a class book that is not there",
        1,
        &[0, 0, 0, 4, 0, 0, 1, 0, 0, 192, 0],
        Some(ResidueFault::Book),
    ),
    (
        "two classes, and a class book of one entry",
        1,
        &[0, 0, 0, 4, 0, 0, 1, 0, 0, 1, 0],
        Some(ResidueFault::Book),
    ),
    (
        "a book without values in a pass",
        1,
        &[0, 0, 0, 4, 0, 0, 1, 0, 0, 0, 64, 0, 0],
        Some(ResidueFault::Book),
    ),
    (
        "a book in a pass that is not there",
        1,
        &[0, 0, 0, 4, 0, 0, 1, 0, 0, 0, 64, 12, 0],
        Some(ResidueFault::Book),
    ),
    (
        "a book in the last pass alone",
        1,
        &[0, 0, 0, 4, 0, 0, 1, 0, 0, 0, 0, 194, 0],
        None,
    ),
    (
        "books in five passes, and the packet ends before them",
        1,
        &[0, 0, 0, 4, 0, 0, 1, 0, 0, 0, 0, 126],
        Some(ResidueFault::End),
    ),
];

#[test]
fn refuses_by_the_first_cause(rt: HostRuntime) -> Result<(), Fail> {
    let alloc = rt.alloc();
    let books = small_books(alloc)?;
    for (name, kind, setup, wanted) in &READ {
        let fault = Residue::read(alloc, &mut Bits::new(setup), *kind, &books).err();
        assert!(rt; fault == *wanted, "{name}");
    }
    for count in 0..SMALL.len() {
        let fault = Residue::read(alloc, &mut Bits::new(&SMALL[..count]), 1, &books).err();
        assert!(rt; fault == Some(ResidueFault::End), "{count} bytes");
    }
    Ok(())
}

const TEXTS: [(ResidueFault, &str); 4] = [
    (ResidueFault::Kind, "a residue has an unknown type"),
    (ResidueFault::End, "the packet ends within a residue"),
    (
        ResidueFault::Book,
        "a residue names a codebook that is not there, or that does not serve there",
    ),
    (ResidueFault::Memory, "out of memory"),
];

#[test]
fn says_what_is_wrong(rt: HostRuntime) -> Result<(), Fail> {
    for (fault, text) in &TEXTS {
        assert_eq!(&rt; fault.to_string(rt.alloc())?.as_str(), *text);
    }
    Ok(())
}
