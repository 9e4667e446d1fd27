use crate::{Constants, ConstantsFault};
use model_synthesis::CONSTANTS_WORD;
use std::alloc::{AllocError, Global};
use std::test::Fail;

/// How many numbers a file has.
const NUMBERS: u32 = 16608;

/// How a file is made: a number is 500 times its index, but from an index on it is this value; the
/// file is cut to so many bytes.
#[derive(Clone, Copy)]
struct Made {
    word: [u8; 8],
    from: u32,
    value: u32,
    size: usize,
}

/// What a row shows, a file, and why it is refused, if it is.
const FILES: [(&str, Made, Option<ConstantsFault>); 13] = [
    (
        "a right file",
        Made {
            word: CONSTANTS_WORD,
            from: NUMBERS,
            value: 0,
            size: 66440,
        },
        None,
    ),
    (
        "2^23 for each number",
        Made {
            word: CONSTANTS_WORD,
            from: 0,
            value: 1 << 23,
            size: 66440,
        },
        None,
    ),
    (
        "no byte",
        Made {
            word: CONSTANTS_WORD,
            from: NUMBERS,
            value: 0,
            size: 0,
        },
        Some(ConstantsFault::Magic),
    ),
    (
        "seven bytes",
        Made {
            word: CONSTANTS_WORD,
            from: NUMBERS,
            value: 0,
            size: 7,
        },
        Some(ConstantsFault::Magic),
    ),
    (
        "another word",
        Made {
            word: *b"VFCONST2",
            from: NUMBERS,
            value: 0,
            size: 66440,
        },
        Some(ConstantsFault::Magic),
    ),
    (
        "another word and a byte less",
        Made {
            word: *b"VFCONST2",
            from: NUMBERS,
            value: 0,
            size: 66439,
        },
        Some(ConstantsFault::Magic),
    ),
    (
        "the word alone",
        Made {
            word: CONSTANTS_WORD,
            from: NUMBERS,
            value: 0,
            size: 8,
        },
        Some(ConstantsFault::Length { n: 8 }),
    ),
    (
        "a byte less, and a number past its range",
        Made {
            word: CONSTANTS_WORD,
            from: 0,
            value: u32::MAX,
            size: 66439,
        },
        Some(ConstantsFault::Length { n: 66439 }),
    ),
    (
        "a byte more",
        Made {
            word: CONSTANTS_WORD,
            from: NUMBERS,
            value: 0,
            size: 66441,
        },
        Some(ConstantsFault::Length { n: 66441 }),
    ),
    (
        "a decibel value above 2^30",
        Made {
            word: CONSTANTS_WORD,
            from: 255,
            value: (1 << 30) + 1,
            size: 66440,
        },
        Some(ConstantsFault::Range {
            index: 255,
            value: (1 << 30) + 1,
        }),
    ),
    (
        "2^30 for each number",
        Made {
            word: CONSTANTS_WORD,
            from: 0,
            value: 1 << 30,
            size: 66440,
        },
        Some(ConstantsFault::Range {
            index: 256,
            value: 1 << 30,
        }),
    ),
    (
        "a cosine above 2^23",
        Made {
            word: CONSTANTS_WORD,
            from: 8421,
            value: 8388609,
            size: 66440,
        },
        Some(ConstantsFault::Range {
            index: 8421,
            value: 8388609,
        }),
    ),
    (
        "the last number past its range",
        Made {
            word: CONSTANTS_WORD,
            from: 16607,
            value: u32::MAX,
            size: 66440,
        },
        Some(ConstantsFault::Range {
            index: 16607,
            value: u32::MAX,
        }),
    ),
];

/// What a row shows, a size as a power of two, a place in the slope of this size, and the value
/// there, in a file whose numbers are 500 times their indices.
const SLOPES: [(&str, u32, u32, u32); 5] = [
    ("the first value of the shortest slope", 5, 0, 128000),
    ("its last value", 5, 31, 143500),
    ("the first value of the next slope", 6, 0, 144000),
    ("a middle value of the slope of 2048", 11, 1000, 1636000),
    ("the last value of the longest slope", 12, 4095, 4207500),
];

/// What a row shows, the size of a block as a power of two, a number of steps, and their cosine in
/// the same file.
const COSINES: [(&str, u32, u64, i64); 12] = [
    ("the least step of a short block", 6, 1, 4272000),
    ("the last step of the first quarter", 6, 63, 8240000),
    ("the first step of the second", 6, 65, -8240000),
    ("its last step", 6, 127, -4272000),
    ("the first step of the third quarter", 6, 129, -4272000),
    ("its last step", 6, 191, -8240000),
    ("the first step of the fourth", 6, 193, 8240000),
    ("its last step", 6, 255, 4272000),
    ("the first step of the next turn", 6, 257, 4272000),
    ("turns on, in a block of 256", 8, 12345, 5120000),
    (
        "a step of the longest block that no other block has",
        13,
        8193,
        -8303500,
    ),
    (
        "the greatest number of steps",
        13,
        18446744073709551615,
        4208500,
    ),
];

/// The file that is made so.
fn file(alloc: Global, made: &Made) -> Result<Vec<u8>, AllocError> {
    let mut bytes = made.word.to_vec(alloc)?;
    for index in 0..NUMBERS {
        let number = if index < made.from {
            index * 500
        } else {
            made.value
        };
        bytes.extend_from_slice(&number.to_le_bytes())?;
    }
    bytes.push(0)?;
    bytes.truncate(made.size);
    Ok(bytes)
}

#[test]
fn tells_right_files_from_others(rt: HostRuntime) -> Result<(), Fail> {
    for (name, made, expected) in &FILES {
        let bytes = file(rt.alloc(), made)?;
        let refused = Constants::read(rt.alloc(), &bytes).err();
        assert_eq!(rt; refused, *expected, "{name}");
    }
    Ok(())
}

/// The value at a place of a slope, if there is such a slope and place.
fn slope(constants: &Constants, exponent: u32, place: u32) -> Option<u32> {
    if exponent < 5 || exponent > 12 {
        return None;
    }
    let size = 1 << exponent;
    if place < size {
        Some(constants.slope(size, place))
    } else {
        None
    }
}

/// The cosine of a number of steps, if there are such blocks, and the number is odd.
fn cosq(constants: &Constants, exponent: u32, t: u64) -> Option<i64> {
    if exponent < 6 || exponent > 13 || t % 2 == 0 {
        return None;
    }
    Some(constants.cosq(1 << exponent, t))
}

#[test]
fn gives_the_numbers_of_the_file(rt: HostRuntime) -> Result<(), Fail> {
    let (_, right, _) = &FILES[0];
    let constants = Constants::read(rt.alloc(), &file(rt.alloc(), right)?)?;
    assert_eq!(rt; constants.decibel(0), 0, "the first decibel value");
    assert_eq!(rt; constants.decibel(255), 127500, "the last decibel value");
    for (name, exponent, place, value) in &SLOPES {
        assert_eq!(rt;
            slope(&constants, *exponent, *place),
            Some(*value),
            "{name}"
        );
    }
    for (name, exponent, t, value) in &COSINES {
        assert_eq!(rt; cosq(&constants, *exponent, *t), Some(*value), "{name}");
    }
    Ok(())
}
