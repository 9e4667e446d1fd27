//! Trials: what is written of made inputs, which `tools/made_inputs.py` makes too, and words that
//! are no trial.

use crate::session::assert_ends;
use player_session::Status;
use std::test::Fail;
use test_common::{Failing, NOTHING_FAILS, run_words};

/// The words of a trial.
type Words = [&'static str; 5];

/// Trials, and the lines of each. Their counts change nothing.
const TRIALS: [(Words, &str); 3] = [
    (
        ["trial", "7", "3", "16", "2"],
        "links 3 blocks 3900 frames 317385 gaps 1\nreport 503610 sum 6531643595767055049\n",
    ),
    (
        ["trial", "7", "0", "1", "1"],
        "links 3 blocks 3900 frames 317385 gaps 1\nreport 503610 sum 6531643595767055049\n",
    ),
    (
        ["trial", "18446744073709551615", "0", "1", "1"],
        "links 3 blocks 3900 frames 313881 gaps 1\nreport 669839 sum 2237236622577767519\n",
    ),
];

#[test]
fn trials(rt: HostRuntime) -> Result<(), Fail> {
    for (words, lines) in &TRIALS {
        let run = run_words(rt.alloc(), words, &[], NOTHING_FAILS)?;
        assert_ends(&rt, words[1], &run, Status::Ok, lines.as_bytes(), b"");
    }
    Ok(())
}

#[test]
fn a_trial_whose_put_fails(rt: HostRuntime) -> Result<(), Fail> {
    let (words, _) = &TRIALS[1];
    let failing = Failing {
        out: &[1],
        ..NOTHING_FAILS
    };
    let run = run_words(rt.alloc(), words, &[], failing)?;
    assert_ends(
        &rt,
        "the put of the lines fails",
        &run,
        Status::Output,
        b"",
        b"",
    );
    Ok(())
}

/// What a row shows, and words that are no trial.
type Refused = (&'static str, &'static [&'static str]);

const NO_TRIALS: [Refused; 9] = [
    (
        "a number with a leading zero",
        &["trial", "07", "3", "16", "2"],
    ),
    (
        "a number past 64 bits",
        &["trial", "18446744073709551616", "3", "16", "2"],
    ),
    ("a number with a sign", &["trial", "+7", "3", "16", "2"]),
    ("a helper too many", &["trial", "7", "17", "16", "2"]),
    ("no slots for blocks", &["trial", "7", "3", "0", "2"]),
    (
        "a slot for blocks too many",
        &["trial", "7", "3", "1025", "2"],
    ),
    (
        "a slot for setups too many",
        &["trial", "7", "3", "16", "65"],
    ),
    ("a word too few", &["trial", "7", "3", "16"]),
    ("a word too many", &["trial", "7", "3", "16", "2", "2"]),
];

#[test]
fn words_that_are_no_trial(rt: HostRuntime) -> Result<(), Fail> {
    for (case, words) in &NO_TRIALS {
        let run = run_words(rt.alloc(), words, &[], NOTHING_FAILS)?;
        assert_ends(&rt, case, &run, Status::Usage, b"", b"usage\n");
    }
    Ok(())
}
