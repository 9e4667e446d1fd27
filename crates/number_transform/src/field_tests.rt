//! Values that were worked out in Python, whose whole numbers have no limit.

use super::*;
use std::test::Fail;

/// What a row shows, two residues, and their sum, difference and product.
#[derive(Clone, Copy)]
struct Row {
    name: &'static str,
    numbers: (u64, u64),
    sum: u64,
    difference: u64,
    product: u64,
}

const ROWS: [Row; 5] = [
    Row {
        name: "small numbers",
        numbers: (5, 3),
        sum: 8,
        difference: 2,
        product: 15,
    },
    Row {
        name: "the second is larger",
        numbers: (3, 5),
        sum: 8,
        difference: 0xffff_fffe_ffff_ffff,
        product: 15,
    },
    Row {
        name: "the greatest residue twice",
        numbers: (0xffff_ffff_0000_0000, 0xffff_ffff_0000_0000),
        sum: 0xffff_fffe_ffff_ffff,
        difference: 0,
        product: 1,
    },
    Row {
        name: "numbers without a pattern",
        numbers: (0x1234_5678_8765_4321, 0xfedc_ba98_0000_0007),
        sum: 0x1111_1111_8765_4327,
        difference: 0x1357_9bdf_8765_431b,
        product: 0xa081_f073_e5d3_784c,
    },
    Row {
        name: "either half of a word",
        numbers: (0xffff_ffff, 0xffff_ffff_0000_0000),
        sum: 0xffff_fffe,
        difference: 0x1_0000_0000,
        product: 0xffff_fffe_0000_0002,
    },
];

#[test]
fn sums_and_products(rt: HostRuntime) -> Result<(), Fail> {
    for row in &ROWS {
        let name = row.name;
        let (a, b) = row.numbers;
        assert!(rt; a < PRIME && b < PRIME, "{name}");
        assert_eq!(rt; add(a, b), row.sum, "{name}");
        assert_eq!(rt; subtract(a, b), row.difference, "{name}");
        assert_eq!(rt; multiply(a, b), row.product, "{name}");
    }
    Ok(())
}

/// What a row shows, a word, an exponent, and the power.
const POWERS: [(&str, u64, u64, u64); 6] = [
    ("nothing to the power nothing", 0, 0, 1),
    ("2^96 is -1", 2, 96, 0xffff_ffff_0000_0000),
    (
        "7 to the order less 1 is its inverse",
        7,
        0xffff_fffe_ffff_ffff,
        0x2492_4924_6db6_db6e,
    ),
    ("7 to the order", 7, 0xffff_ffff_0000_0000, 1),
    (
        "a root of unity of order 8192",
        7,
        0x7_ffff_fff8_0000,
        0x1544_ef23_35d1_7997,
    ),
    ("the greatest word", u64::MAX, 2, 0xffff_fffc_0000_0004),
];

#[test]
fn powers(rt: HostRuntime) -> Result<(), Fail> {
    for (name, base, exponent, expected) in &POWERS {
        assert_eq!(rt; power(*base, *exponent), *expected, "{name}");
    }
    Ok(())
}

/// What a row shows, a signed number, and its residue.
const SIGNED: [(&str, i64, u64); 4] = [
    ("nothing", 0, 0),
    ("-1", -1, 0xffff_ffff_0000_0000),
    ("the greatest", 0x7fff_ffff_8000_0000, 0x7fff_ffff_8000_0000),
    ("the least", -0x7fff_ffff_8000_0000, 0x7fff_ffff_8000_0001),
];

#[test]
fn signed_numbers(rt: HostRuntime) -> Result<(), Fail> {
    for (name, number, residue) in &SIGNED {
        assert!(rt; *residue < PRIME, "{name}");
        assert_eq!(rt; from_signed(*number), *residue, "{name}");
        assert_eq!(rt; to_signed(*residue), *number, "{name}");
    }
    Ok(())
}
