//! Reads the true constants, and prints some of them: the first, the last and some between. Then it
//! prints a number for the half sums of a block of each size, by each way to make them.
#![tactic(auto)]

mod sums;

use crate::sums::print_all_sums;
use constants_file::Constants;
use std::{fs, io};

/// Decibel values, by heights of a curve.
const HEIGHTS: [u8; 6] = [0, 1, 100, 128, 254, 255];

/// Slope values, by sizes, as powers of two, and places.
const SLOPES: [(u32, u32); 6] = [(5, 0), (5, 15), (5, 31), (10, 300), (12, 2048), (12, 4095)];

/// Cosines, by numbers of steps in a block of 8192.
const STEPS: [u64; 5] = [1, 5461, 8191, 8193, 32767];

/// Prints the value at a place of a slope, if there is such a slope and place.
fn print_slope(
    rt: &HostRuntime,
    constants: &Constants,
    exponent: u32,
    place: u32,
) -> io::Result<()> {
    if exponent < 5 || exponent > 12 {
        return Ok(());
    }
    let size = 1 << exponent;
    if place < size {
        let value = constants.slope(size, place);
        println!(rt; "slope {size} {place} {value}")?;
    }
    Ok(())
}

/// Prints the cosine of a number of steps, if there are such blocks, and the number is odd.
fn print_cosine(rt: &HostRuntime, constants: &Constants, exponent: u32, t: u64) -> io::Result<()> {
    if exponent < 6 || exponent > 13 || t % 2 == 0 {
        return Ok(());
    }
    let value = constants.cosq(1 << exponent, t);
    println!(rt; "cosine {t} {value}")
}

fn main(rt: HostRuntime) -> io::Result<()> {
    let bytes = fs::read(&rt, "true.bin")?;
    let Ok(constants) = Constants::read(rt.alloc(), &bytes) else {
        return println!(rt; "refused");
    };
    for height in HEIGHTS {
        let value = constants.decibel(height);
        println!(rt; "decibel {height} {value}")?;
    }
    for (exponent, place) in SLOPES {
        print_slope(&rt, &constants, exponent, place)?;
    }
    for t in STEPS {
        print_cosine(&rt, &constants, 13, t)?;
    }
    print_all_sums(&rt, constants.transforms())
}
