ghost use Rattle.std.specs.Prelude.{◌≡◌, IfOk, vec_len};
ghost use Rattle.model_synthesis.specs.Windows.{AreBlockValues};

use super::*;
use constants_file::Constants;
use model_synthesis::CONSTANTS_WORD;
use std::alloc::{AllocError, Global};
use std::test::Fail;

/// How many numbers a constants file has.
const NUMBERS: u32 = 16608;

/// The constants whose numbers are so many times their indices, and so much more.
fn constants(alloc: Global, times: u32, more: u32) -> Result<Constants, Fail> {
    let mut bytes = CONSTANTS_WORD.to_vec(alloc)?;
    for index in 0..NUMBERS {
        let number = index.wrapping_mul(times).wrapping_add(more);
        bytes.extend_from_slice(&number.to_le_bytes())?;
    }
    Ok(Constants::read(alloc, &bytes)?)
}

/// So many values from one on, each so much above the one before.
fn rising_values(alloc: Global, count: u16, first: i32, step: i32) -> Result<Vec<i64>, AllocError>
    ensures count { IfOk result (λ values. vec_len values ≡ count) }
    ensures small { IfOk result (λ values. AreBlockValues values.items) }
{
    let mut values = Vec::new(alloc);
    for place in 0..count {
        let above = step.wrapping_mul(i32::from(place));
        values.push(i64::from(first.wrapping_add(above)))?;
    }
    Ok(values)
}

/// A block: the sizes of short blocks and of itself as powers of two, and its flags.
#[derive(Clone, Copy)]
struct Shape {
    short: u32,
    size: u32,
    long: bool,
    prev: bool,
    next: bool,
}

/// A short block.
const SHORT: Shape = Shape {
    short: 6,
    size: 6,
    long: false,
    prev: false,
    next: false,
};

/// A short block, whose flags say nothing.
const SHORT_BESIDE_LONG: Shape = Shape {
    short: 6,
    size: 6,
    long: false,
    prev: true,
    next: true,
};

/// A long block between long ones.
const BETWEEN_LONG: Shape = Shape {
    short: 6,
    size: 8,
    long: true,
    prev: true,
    next: true,
};

/// A long block behind a short one.
const BEHIND_SHORT: Shape = Shape {
    short: 6,
    size: 8,
    long: true,
    prev: false,
    next: true,
};

/// A long block before a short one.
const BEFORE_SHORT: Shape = Shape {
    short: 6,
    size: 8,
    long: true,
    prev: true,
    next: false,
};

/// A long block between short ones.
const BETWEEN_SHORT: Shape = Shape {
    short: 6,
    size: 8,
    long: true,
    prev: false,
    next: false,
};

/// A long block that is as long as a short one, between short ones.
const OF_ONE_SIZE: Shape = Shape {
    short: 9,
    size: 9,
    long: true,
    prev: false,
    next: false,
};

/// The largest block between the smallest.
const LARGEST_BETWEEN_SHORT: Shape = Shape {
    short: 6,
    size: 13,
    long: true,
    prev: false,
    next: false,
};

/// The largest block between its like.
const LARGEST_BETWEEN_LONG: Shape = Shape {
    short: 6,
    size: 13,
    long: true,
    prev: true,
    next: true,
};

/// What a row shows, a block, a place in it, and the value there under its window, worked out by
/// the standard's rule apart from this program. The slopes' numbers are 500 times their indices in
/// the constants file. Without its window the block has -1,500,000,000 at its first place, and at
/// each further one 300,007 more than at the one before.
const WINDOWED: [(&str, Shape, usize, i64); 22] = [
    ("the first value of a short block", SHORT, 0, -22888184),
    ("the last of its left slope", SHORT, 31, -25500706),
    (
        "the first of its right slope, whatever the flags say",
        SHORT_BESIDE_LONG,
        32,
        -25495574,
    ),
    ("the last value of a short block", SHORT, 63, -22599786),
    (
        "a long block between long ones begins to rise",
        BETWEEN_LONG,
        0,
        -31471253,
    ),
    ("and has risen in its middle", BETWEEN_LONG, 127, -41738134),
    ("it falls from there on", BETWEEN_LONG, 128, -41729568),
    ("to its end", BETWEEN_LONG, 255, -29866182),
    (
        "behind a short block there are zeros first",
        BEHIND_SHORT,
        47,
        0,
    ),
    ("and then the short slope", BEHIND_SHORT, 48, -22668452),
    ("which ends early", BEHIND_SHORT, 79, -25254366),
    (
        "and is followed by whole values",
        BEHIND_SHORT,
        80,
        -1475999440,
    ),
    ("up to the long slope", BEHIND_SHORT, 128, -41729568),
    (
        "before a short block the long slope rises",
        BEFORE_SHORT,
        0,
        -31471253,
    ),
    (
        "then there are whole values",
        BEFORE_SHORT,
        175,
        -1447498775,
    ),
    ("up to the short slope", BEFORE_SHORT, 176, -24756554),
    ("which ends", BEFORE_SHORT, 207, -21940591),
    ("before the zeros", BEFORE_SHORT, 208, 0),
    (
        "between short blocks the middle is whole",
        BETWEEN_SHORT,
        128,
        -1461599104,
    ),
    (
        "where both sizes are one, the slope is that of both",
        OF_ONE_SIZE,
        0,
        -42915345,
    ),
    (
        "the largest block between short ones",
        LARGEST_BETWEEN_SHORT,
        2033,
        -13634685,
    ),
    (
        "and between long ones",
        LARGEST_BETWEEN_LONG,
        8191,
        246511918,
    ),
];

/// What a row shows, the sizes of a block and of the next one as powers of two, the number of a
/// frame between them, and its value, worked out likewise. The right half has 1,000,000 at first,
/// and then 7 less each time; the left half -2,000,000,000, and then 1,000 more each time.
const FRAMES: [(&str, u32, u32, u32, i64); 11] = [
    (
        "neighbours of one size, the first frame",
        6,
        6,
        0,
        -1999000000,
    ),
    ("and the last", 6, 6, 31, -1998969217),
    (
        "a long block before a short one is alone at first",
        8,
        6,
        47,
        999671,
    ),
    ("then both are heard", 8, 6, 48, -1999000336),
    ("to the last frame", 8, 6, 79, -1998969553),
    (
        "a short block before a long one, the first frame",
        6,
        8,
        0,
        -1998952000,
    ),
    ("the last frame of the short block", 6, 8, 31, -1998921217),
    ("then the long block is alone", 6, 8, 32, -1999920000),
    ("to the last frame", 6, 8, 79, -1999873000),
    ("the largest blocks", 13, 13, 4095, -1994933665),
    ("the largest before the smallest", 13, 6, 2063, -1998983441),
];

/// What a row shows, a value, and its sample.
const SAMPLES: [(&str, i64, i16); 17] = [
    ("silence", 0, 0),
    ("just less than half a sample", 15, 0),
    ("half a sample", 16, 1),
    ("half a sample below zero", -16, 0),
    ("more than that", -17, -1),
    ("one and a half", 48, 2),
    ("a quarter of the greatest", -262144, -8192),
    ("a half of it", -524288, -16384),
    ("the highest sample", 1048559, 32767),
    ("the first value past it", 1048560, 32767),
    ("far past it", 1099511627776, 32767),
    ("the lowest sample", -1048576, -32768),
    ("the last value that is not past it", -1048592, -32768),
    ("the first that is", -1048593, -32768),
    ("far past it", -1099511627776, -32768),
    ("the greatest number", i64::MAX, 32767),
    ("the least number", i64::MIN, -32768),
];

/// The value at a place of a block of rising values under its window, if there are such blocks.
fn value_under_window(
    alloc: Global,
    constants: &Constants,
    shape: Shape,
    first: i32,
    step: i32,
    place: usize,
) -> Result<Option<i64>, AllocError> {
    let Shape {
        short,
        size,
        long,
        prev,
        next,
    } = shape;
    if short < 6 || short > size || size > 13 || !long && short != size {
        return Ok(None);
    }
    let mut block = rising_values(alloc, 1 << size, first, step)?;
    window(constants, 1 << short, long, prev, next, &mut block);
    Ok(block.get(place).copied())
}

#[test]
fn puts_windows_on_blocks(rt: HostRuntime) -> Result<(), Fail> {
    let rising = constants(rt.alloc(), 500, 0)?;
    for (name, shape, place, expected) in &WINDOWED {
        let value = value_under_window(
            rt.alloc(),
            &rising,
            *shape,
            -1_500_000_000,
            300_007,
            *place,
        )?;
        assert_eq!(rt; value, Some(*expected), "{name}");
    }
    let half = constants(rt.alloc(), 0, 1 << 22)?;
    for (name, before, after) in [("above zero", 262144, 131072), ("below", -262144, -131072)] {
        let value = value_under_window(rt.alloc(), &half, SHORT, before, 0, 0)?;
        assert_eq!(rt; value, Some(after), "{name}");
    }
    Ok(())
}

/// A frame between two blocks of these sizes, if there are such blocks and such a frame.
fn frame_between(
    alloc: Global,
    right: u32,
    left: u32,
    number: u32,
) -> Result<Option<i64>, AllocError> {
    if right < 6 || right > 13 || left < 6 || left > 13 {
        return Ok(None);
    }
    let count = (1 << right) / 4 + (1 << left) / 4;
    if number >= count {
        return Ok(None);
    }
    let right_half = rising_values(alloc, (1 << right) / 2, 1_000_000, -7)?;
    let left_half = rising_values(alloc, (1 << left) / 2, -2_000_000_000, 1000)?;
    let mut out = [0];
    overlap(&right_half, &left_half, number, number + 1, &mut out);
    Ok(Some(out[0]))
}

#[test]
fn overlaps_halves(rt: HostRuntime) -> Result<(), Fail> {
    for (name, right, left, number, expected) in &FRAMES {
        let value = frame_between(rt.alloc(), *right, *left, *number)?;
        assert_eq!(rt; value, Some(*expected), "{name}");
    }
    Ok(())
}

#[test]
fn rounds_samples(rt: HostRuntime) {
    for (name, value, sample) in &SAMPLES {
        assert_eq!(rt; pcm(*value), *sample, "{name}");
    }
}
