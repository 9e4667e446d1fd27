ghost use Rattle.std.specs.Prelude.{◌≡◌, ◌≤◌, ◌<◌, ◌*◌, ◌^◌, length, IfOk};
ghost use Rattle.std.specs.List.{All};
ghost use Rattle.model_fixed.specs.Fixed.{IsWithinLimit};
ghost use Rattle.model_synthesis.specs.Spectrum.{IsBin};

use crate::{shape, transform, uncouple};
use constants_file::Constants;
use model_fixed::VALUE_LIMIT;
use model_synthesis::{
    CONSTANTS_WORD, COSINE_COUNT, ConstantsFault, DECIBEL_COUNT, SLOPE_COUNT, SPECTRUM_LIMIT,
};
use std::alloc::{AllocError, Global};
use std::test::Fail;

/// The greatest value.
const VALUE: i64 = VALUE_LIMIT as i64;

/// The greatest bin.
const BIN: i64 = SPECTRUM_LIMIT as i64;

/// What a row shows, a magnitude and an angle, and the values of the two channels.
const COUPLED: [(&str, i64, i64, i64, i64); 15] = [
    ("both above 0", 5, 2, 5, 3),
    ("an angle below 0", 5, -2, 3, 5),
    ("a magnitude below 0", -5, 2, -5, -3),
    ("both below 0", -5, -2, -3, -5),
    ("a magnitude of 0 and an angle above it", 0, 2, 0, 2),
    ("a magnitude of 0 and an angle below it", 0, -2, 2, 0),
    ("an angle of 0 and a magnitude above it", 5, 0, 5, 5),
    ("an angle of 0 and a magnitude below it", -5, 0, -5, -5),
    ("both 0", 0, 0, 0, 0),
    ("an angle further from 0", 3, 7, 3, -4),
    ("the greatest values", VALUE, VALUE, VALUE, 0),
    (
        "the greatest magnitude and the least angle",
        VALUE,
        -VALUE,
        0,
        VALUE,
    ),
    ("the least values", -VALUE, -VALUE, 0, -VALUE),
    (
        "a magnitude of 0 and the greatest angle",
        0,
        VALUE,
        0,
        VALUE,
    ),
    ("a magnitude of 0 and the least angle", 0, -VALUE, VALUE, 0),
];

/// What a row shows, a decibel value, a value of a residue, and the bin that they make.
const SHAPED: [(&str, u32, i64, i64); 12] = [
    ("a whole quotient", 1 << 24, 8, 2),
    ("a quotient between 0 and 1", 1 << 24, 3, 0),
    ("a quotient between -1 and 0", 1 << 24, -3, -1),
    ("a whole quotient below 0", 1 << 24, -8, -2),
    ("the least step below 0", 1, -1, -1),
    ("no decibel value", 0, VALUE, 0),
    ("the greatest bin", 1 << 30, 1 << 23, BIN),
    ("one step past it", 1 << 30, (1 << 23) + 1, BIN),
    ("the least bin", 1 << 30, -(1 << 23), -BIN),
    ("one step past it", 1 << 30, -(1 << 23) - 1, -BIN),
    ("the greatest product", 1 << 30, VALUE, BIN),
    ("the least product", 1 << 30, -VALUE, -BIN),
];

/// What the cosines of a quarter are: all the same, or at place j 2^23 less an eighth of the square
/// of j, rounded down.
#[derive(Clone, Copy)]
enum Cosines {
    All(u32),
    Falling,
}

/// What the bins of a spectrum are: one number and zeros behind it, a number and its negative in
/// turns, or at place k the rest of 12345 k k + 678 k by 2^28, less 2^27.
#[derive(Clone, Copy)]
enum Spectrum {
    First(i64),
    Alternating(i64),
    Noise,
}

/// What a row shows, the cosines, the size of the block as a power of two, the spectrum, the first
/// and the last value of the block's first quarter, the first of its second and of its third, and
/// its last, and the digest of all values.
struct Row {
    name: &'static str,
    cosines: Cosines,
    exponent: u32,
    spectrum: Spectrum,
    values: [i64; 5],
    digest: i64,
}

/// The values were worked out from the standard's sum, with the cosine by its four quarters.
const BLOCKS: [Row; 7] = [
    Row {
        name: "no cosine",
        cosines: Cosines::All(0),
        exponent: 6,
        spectrum: Spectrum::Alternating(BIN),
        values: [0, 0, 0, 0, 0],
        digest: 0,
    },
    Row {
        name: "all cosines 1 and one bin of 1: a sum below 0 is rounded down",
        cosines: Cosines::All(1),
        exponent: 6,
        spectrum: Spectrum::First(1),
        values: [0, 0, -1, -1, -1],
        digest: -4105145458233533184,
    },
    Row {
        name: "all cosines 1 and one bin of -1",
        cosines: Cosines::All(1),
        exponent: 6,
        spectrum: Spectrum::First(-1),
        values: [-1, -1, 0, 0, 0],
        digest: 4025192378240917248,
    },
    Row {
        name: "64 values",
        cosines: Cosines::Falling,
        exponent: 6,
        spectrum: Spectrum::Noise,
        values: [-89549836, 60973659, -60973660, -93371553, -93371553],
        digest: 7218765949581819626,
    },
    Row {
        name: "256 values",
        cosines: Cosines::Falling,
        exponent: 8,
        spectrum: Spectrum::Noise,
        values: [49658661, -33276028, 33276027, 50169318, 50169318],
        digest: 5614267047184706824,
    },
    Row {
        name: "2,048 values",
        cosines: Cosines::Falling,
        exponent: 11,
        spectrum: Spectrum::Noise,
        values: [326924032, 266950822, -266950823, 1596436735, 1596436735],
        digest: -2236036666707507146,
    },
    Row {
        name: "8,192 values, among them the greatest",
        cosines: Cosines::All(1 << 23),
        exponent: 13,
        spectrum: Spectrum::Alternating(BIN),
        values: [0, 549755813888, -549755813888, 0, 0],
        digest: 3743764664396283904,
    },
];

/// A value within its limit.
fn within(value: i64) -> i64
    ensures { IsWithinLimit result }
{
    value.clamp(-VALUE, VALUE)
}

/// The number of this index in a file whose decibel values are all the same.
fn number(decibel: u32, cosines: Cosines, index: u32) -> u32 {
    if index < DECIBEL_COUNT as u32 {
        return decibel;
    }
    let Some(place) = index.checked_sub((DECIBEL_COUNT + SLOPE_COUNT) as u32) else {
        return 0;
    };
    match cosines {
        Cosines::All(cosine) => cosine,
        Cosines::Falling => (1u32 << 23).saturating_sub(place.wrapping_mul(place) / 8),
    }
}

/// The constants of such a file.
fn constants(alloc: Global, decibel: u32, cosines: Cosines) -> Result<Constants, ConstantsFault> {
    let mut bytes = CONSTANTS_WORD.to_vec(alloc)?;
    for index in 0..(DECIBEL_COUNT + SLOPE_COUNT + COSINE_COUNT) as u32 {
        bytes.extend_from_slice(&number(decibel, cosines, index).to_le_bytes())?;
    }
    Constants::read(alloc, &bytes)
}

/// The bin of a spectrum at a place.
fn bin(spectrum: Spectrum, place: u32) -> i64
    ensures { IsBin result }
{
    let value = match spectrum {
        Spectrum::First(number) if place == 0 => number,
        Spectrum::First(_) => 0,
        Spectrum::Alternating(number) if place % 2 == 0 => number,
        Spectrum::Alternating(number) => number.wrapping_neg(),
        Spectrum::Noise => {
            let place = u64::from(place);
            let square = place.wrapping_mul(place).wrapping_mul(12345);
            (square.wrapping_add(place.wrapping_mul(678)) % (1 << 28)) as i64 - BIN
        }
    };
    value.clamp(-BIN, BIN)
}

/// So many bins of a spectrum.
fn bins(alloc: Global, spectrum: Spectrum, count: u32) -> Result<Vec<i64>, AllocError>
    ensures count { IfOk result (λ v. length v.items ≡ count) }
    ensures bins { IfOk result (λ v. All IsBin v.items) }
{
    let mut bins = Vec::new(alloc);
    for place in 0..count {
        bins.push(bin(spectrum, place))?;
    }
    Ok(bins)
}

/// The values of the two channels in one bin.
fn taken_apart(magnitude: i64, angle: i64) -> (i64, i64) {
    let mut magnitude = [within(magnitude)];
    let mut angle = [within(angle)];
    uncouple(&mut magnitude, &mut angle);
    (magnitude[0], angle[0])
}

#[test]
fn takes_channels_apart(rt: HostRuntime) -> Result<(), Fail> {
    for (name, magnitude, angle, first, second) in &COUPLED {
        assert_eq!(rt;
            taken_apart(*magnitude, *angle),
            (*first, *second),
            "{name}"
        );
    }
    Ok(())
}

#[test]
fn shapes_a_residue(rt: HostRuntime) -> Result<(), Fail> {
    for (name, decibel, value, bin) in &SHAPED {
        let constants = constants(rt.alloc(), *decibel, Cosines::All(0))?;
        let mut out = [1];
        shape(&constants, &[within(*value)], &[255], &mut out);
        assert_eq!(rt; out[0], *bin, "{name}");
    }
    Ok(())
}

/// A number that goes with all values of a block.
fn digest(values: &[i64]) -> i64 {
    let mut digest = 0i64;
    for value in values {
        digest = digest.wrapping_mul(31).wrapping_add(*value);
    }
    digest
}

/// The values of a block of this size.
fn block(
    alloc: Global,
    constants: &Constants,
    exponent: u32,
    spectrum: Spectrum,
) -> Result<Vec<i64>, AllocError> {
    if exponent < 6 || exponent > 13 {
        return Ok(Vec::new(alloc));
    }
    let spectrum = bins(alloc, spectrum, 1 << (exponent - 1))?;
    let mut out = vec![in alloc; 0; 1 << exponent]?;
    transform(constants, &spectrum, &mut out);
    Ok(out)
}

#[test]
fn makes_the_values_of_blocks(rt: HostRuntime) -> Result<(), Fail> {
    for row in &BLOCKS {
        let constants = constants(rt.alloc(), 0, row.cosines)?;
        let values = block(rt.alloc(), &constants, row.exponent, row.spectrum)?;
        let count = values.len();
        let mut some = [0; 5];
        let places = [
            0,
            (count / 4).saturating_sub(1),
            count / 4,
            count / 2,
            count.saturating_sub(1),
        ];
        for (value, place) in some.iter_mut().zip(places) {
            if let Some(found) = values.get(place) {
                *value = *found;
            }
        }
        assert_eq!(rt; some, row.values, "{}", row.name);
        assert_eq!(rt; digest(&values), row.digest, "{}", row.name);
    }
    Ok(())
}
