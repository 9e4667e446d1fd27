//! Laps and crosses over films: the report of each script is on the output.
//!
//! What the rows expect is worked out by `tools/laps.py`, which decodes the whole line of a film
//! and splices it frame by frame. It shares nothing with the crates.

mod rows;

use crate::session::{Pieces, WORDS, assert_ends, bytes_of};
use model_synthesis::{CONSTANTS_WORD, COSINE_COUNT, DECIBEL_COUNT, SLOPE_COUNT};
use player_session::Status;
use rows::{CROSSES, LAPS};
use std::alloc::{AllocError, Global};
use std::process::Abort;
use std::test::Fail;
use test_common::{NOTHING_FAILS, Parts, Run, joined, run_over};

/// What a row shows, a film, its constants, a script, and what is reported of all its lanes. The
/// slopes of the constants begin at a number, and each is a step below the one before.
struct Row {
    case: &'static str,
    film: Parts,
    slope: u32,
    step: u32,
    script: &'static str,
    report: Pieces,
}

/// A constants file of which the decibel values and the cosines begin at 1, and the slopes at this
/// number. Each is a step below the one before, and a decibel value a thousand steps.
fn falling(alloc: Global, slope: u32, step: u32) -> Result<Vec<u8>, AllocError> {
    let mut bytes = CONSTANTS_WORD.to_vec(alloc)?;
    for (count, first, step) in [
        (DECIBEL_COUNT, 1 << 30, step.wrapping_mul(1000)),
        (SLOPE_COUNT, slope, step),
        (COSINE_COUNT, 1 << 23, step),
    ] {
        let mut number: u32 = first;
        for _ in 0..count {
            bytes.extend_from_slice(&number.to_le_bytes())?;
            number = number.wrapping_sub(step);
        }
    }
    Ok(bytes)
}

/// Plays the script of a row over its film.
fn played(alloc: Global, row: &Row) -> Result<Run, AllocError> {
    let constants = falling(alloc, row.slope, row.step)?;
    let mut files = Vec::new(alloc);
    files.push((String::from_str(alloc, "c")?, constants))?;
    files.push((String::from_str(alloc, "f")?, joined(alloc, row.film)?))?;
    files.push((
        String::from_str(alloc, "s")?,
        row.script.as_bytes().to_vec(alloc)?,
    ))?;
    run_over(alloc, &WORDS, files, NOTHING_FAILS)
}

/// Compares what is reported of each row.
fn assert_reports(rt: &impl Abort, alloc: Global, rows: &[Row]) -> Result<(), Fail> {
    for row in rows {
        let run = played(alloc, row)?;
        let report = bytes_of(alloc, row.report)?;
        assert_ends(rt, row.case, &run, Status::Ok, &report, b"");
    }
    Ok(())
}

#[test]
fn laps_to_other_places(rt: HostRuntime) -> Result<(), Fail> {
    assert_reports(&rt, rt.alloc(), &LAPS)
}

#[test]
fn crosses_to_other_cursors(rt: HostRuntime) -> Result<(), Fail> {
    assert_reports(&rt, rt.alloc(), &CROSSES)
}
