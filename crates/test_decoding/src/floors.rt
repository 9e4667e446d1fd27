//! `floor_one`: floors and packets as `tools/reference.py` draws them, and what it reads from them.

ghost use Rattle.std.specs.Prelude.{◌≡◌, length};

use crate::given_books::read_book;
use bit_reader::Bits;
use codebooks::Book;
use floor_one::{Final, Floor, FloorFault, Floored};
use std::process::Abort;
use std::test::Fail;

mod rows;

use rows::{BOOK_0, BOOK_1, BOOK_2, ROWS, Row};

/// A floor with one partition of one value: 256 heights, a range of 7 bits, and its third point at
/// bin 64.
const THREE_POINTS: [u8; 5] = [1, 64, 0, 7, 4];

/// A value of the third point, and what it makes of it: its final value, whether it is flagged, and
/// the curve at bins 32 and 96.
#[derive(Clone, Copy)]
struct Moved {
    name: &'static str,
    value: u8,
    third: Final,
    at_32: u8,
    at_96: u8,
}

/// A final value with its flag.
const fn point(value: i32, flagged: bool) -> Final {
    Final { value, flagged }
}

/// The rows of the four ways in which a point moves.
fn moved_rows() -> [Moved; 4] {
    let row = |name, value, third, at_32, at_96| Moved {
        name,
        value,
        third,
        at_32,
        at_96,
    };
    [
        row("not moved", 0, point(75, false), 88, 63),
        row("moved down", 9, point(70, true), 85, 60),
        row("moved up", 10, point(80, true), 90, 65),
        row("moved past the room", 160, point(160, true), 130, 105),
    ]
}

/// A packet of the floor: 100 and 50 behind the bit that isn't 0, then the value as a codeword, its
/// highest bit first.
fn packet_of(value: u8) -> [u8; 4] {
    (1 | 100 << 1 | 50 << 9 | u32::from(value.reverse_bits()) << 17).to_le_bytes()
}

#[test]
fn draws_one_point_moved(rt: HostRuntime) -> Result<(), Fail> {
    let books = [read_book(rt.alloc(), &BOOK_0)?];
    let floor = Floor::read(&mut Bits::new(&THREE_POINTS), 1)?;
    for row in &moved_rows() {
        let packet = packet_of(row.value);
        let mut bits = Bits::new(&packet);
        let Floored::Curve(finals) = floor.decode(&mut bits, &books) else {
            panic!(rt; "{}: unused", row.name);
        };
        let want = [point(100, true), point(50, true), row.third];
        assert!(rt; finals.items() == want.as_slice(), "{}: finals", row.name);
        let mut bins = [0; 128];
        floor.curve(&finals, &mut bins);
        assert!(rt;
            bins[32] == row.at_32 && bins[96] == row.at_96,
            "{}: curve",
            row.name
        );
        assert!(rt;
            bits.take(7) == Some(0) && bits.take(1).is_none(),
            "{}: bits left",
            row.name
        );
    }
    Ok(())
}

#[test]
fn floors_are_unused(rt: HostRuntime) -> Result<(), Fail> {
    let books = [read_book(rt.alloc(), &BOOK_0)?];
    let floor = Floor::read(&mut Bits::new(&THREE_POINTS), 1)?;
    let packet = packet_of(9);
    let mut cut = Bits::new(&packet[..3]);
    assert!(rt;
        matches!(floor.decode(&mut cut, &books), Floored::Unused),
        "cut in its last value"
    );
    assert!(rt; cut.take(1).is_none(), "a cut packet is used up");
    let without_first_bit = [packet[0] & 0xfe];
    let mut silent = Bits::new(&without_first_bit);
    assert!(rt;
        matches!(floor.decode(&mut silent, &books), Floored::Unused),
        "its bit is 0"
    );
    assert!(rt;
        silent.take(7) == Some(100),
        "nothing behind the bit is read"
    );
    Ok(())
}

/// Reads a row's floor and packet, and compares what is drawn and what is left.
fn check_row(rt: &impl Abort, row: &Row, books: &[Book]) -> Result<(), Fail>
    requires { length books.now ≡ 3 }
{
    let floor = Floor::read(&mut Bits::new(row.floor), 3)?;
    let mut bits = Bits::new(row.packet);
    let mut bins = [0; 72];
    assert!(rt; row.curve.len() <= 72, "{}: too long", row.name);
    let bins = &mut bins[..row.curve.len()];
    if let Floored::Curve(finals) = floor.decode(&mut bits, books) {
        floor.curve(&finals, bins);
    }
    assert!(rt; &*bins == row.curve, "{}: curve", row.name);
    for _ in 0..row.left {
        assert!(rt;
            bits.take(1).is_some(),
            "{}: too few bits are left",
            row.name
        );
    }
    assert!(rt;
        bits.take(1).is_none(),
        "{}: too many bits are left",
        row.name
    );
    Ok(())
}

#[test]
fn draws_as_the_reference_does(rt: HostRuntime) -> Result<(), Fail> {
    let alloc = rt.alloc();
    let books = [
        read_book(alloc, &BOOK_0)?,
        read_book(alloc, &BOOK_1)?,
        read_book(alloc, &BOOK_2)?,
    ];
    for row in &ROWS {
        check_row(&rt, row, &books)?;
    }
    Ok(())
}

/// A floor of 65 points, all of one class without books.
const POINTS_65: [u8; 88] = [
    8, 0, 0, 0, 226, 0, 24, 0, 52, 0, 1, 6, 32, 160, 0, 3, 14, 64, 32, 1, 5, 22, 96, 160, 1, 7, 30,
    128, 32, 2, 9, 38, 160, 160, 2, 11, 46, 192, 32, 3, 13, 54, 224, 160, 3, 15, 62, 0, 33, 4, 17,
    70, 32, 161, 4, 19, 78, 64, 33, 5, 21, 86, 96, 161, 5, 23, 94, 128, 33, 6, 25, 102, 160, 161,
    6, 27, 110, 192, 33, 7, 29, 118, 224, 161, 7, 31, 126, 0,
];

/// Floors as they stand in a setup of so many books, and the first cause of a refusal.
const REFUSALS: [(&str, &[u8], u32, Option<FloorFault>); 9] = [
    (
        "the book of class words isn't there",
        &[1, 80, 0, 0, 0, 4],
        1,
        Some(FloorFault::Book),
    ),
    (
        "a subclass names book 1 of one",
        &[1, 128, 0],
        1,
        Some(FloorFault::Book),
    ),
    (
        "no books at all, and none named",
        &[1, 0, 0, 53, 0],
        0,
        None,
    ),
    ("65 points", &POINTS_65, 0, None),
    (
        "66 points, told before their bins are read",
        &[8, 0, 0, 0, 224, 0, 160],
        0,
        Some(FloorFault::List),
    ),
    (
        "two points at one bin",
        &[2, 0, 0, 112, 64, 32],
        0,
        Some(FloorFault::List),
    ),
    (
        "a second point at bin 0",
        &[1, 0, 0, 7, 0],
        0,
        Some(FloorFault::List),
    ),
    (
        "bins are compared once all are read",
        &[3, 0, 0, 0, 7, 4, 2],
        0,
        Some(FloorFault::End),
    ),
    (
        "no partitions: two points, at bins 0 and 1",
        &[96, 0],
        0,
        None,
    ),
];

#[test]
fn refuses_by_the_first_cause(rt: HostRuntime) {
    for (name, setup, books, want) in &REFUSALS {
        let fault = Floor::read(&mut Bits::new(setup), *books).err();
        assert!(rt; fault == *want, "{name}");
    }
    for count in 0..THREE_POINTS.len() {
        let fault = Floor::read(&mut Bits::new(&THREE_POINTS[..count]), 1).err();
        assert!(rt; fault == Some(FloorFault::End), "{count} bytes");
    }
}

const TEXTS: [(FloorFault, &str); 3] = [
    (FloorFault::End, "the packet ends within a floor"),
    (
        FloorFault::Book,
        "a floor names a codebook that the setup doesn't have",
    ),
    (
        FloorFault::List,
        "a floor has more than 65 points, or two points at one bin of the spectrum",
    ),
];

#[test]
fn says_what_is_wrong(rt: HostRuntime) -> Result<(), Fail> {
    for (fault, text) in &TEXTS {
        assert_eq!(&rt; fault.to_string(rt.alloc())?.as_str(), *text);
    }
    Ok(())
}
