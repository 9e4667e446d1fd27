//! What the tests share: a play's words, and texts that are repeated.

use player_session::Status;
use std::alloc::{AllocError, Global};
use std::process::Abort;
use test_common::{Failing, NOTHING_FAILS, Run, constants, run_over};

/// Texts, and how often each stands.
pub type Pieces = &'static [(&'static str, u32)];

/// The words of a play over the constants `c`, the film `f` and the script `s`.
pub const WORDS: [&str; 7] = ["play", "c", "f", "s", "0", "8", "1"];

/// A sample of the base sound in hexadecimal while it is silent, as it is for 16 frames.
pub const LOW: &str = "0000";

/// The same for the 16 frames behind them: half of the range below 0.
pub const HIGH: &str = "00c0";

/// The bytes of texts, each as often as it stands.
pub fn bytes_of(alloc: Global, pieces: &[(&str, u32)]) -> Result<Vec<u8>, AllocError> {
    let mut bytes = Vec::new(alloc);
    for (text, count) in pieces {
        for _ in 0..*count {
            bytes.extend_from_slice(text.as_bytes())?;
        }
    }
    Ok(bytes)
}

/// Right constants `c`, a film `f` and a script `s`, as a shelf has them.
fn files_of(
    alloc: Global,
    film: &[u8],
    script: &[u8],
) -> Result<Vec<(String, Vec<u8>)>, AllocError> {
    let mut files = Vec::new(alloc);
    files.push((String::from_str(alloc, "c")?, constants(alloc, None)?))?;
    files.push((String::from_str(alloc, "f")?, film.to_vec(alloc)?))?;
    files.push((String::from_str(alloc, "s")?, script.to_vec(alloc)?))?;
    Ok(files)
}

/// Plays a script over a film with constants that are right, by these words.
pub fn play_by(
    alloc: Global,
    words: &[&str],
    film: &[u8],
    script: &[u8],
    failing: Failing,
) -> Result<Run, AllocError> {
    run_over(alloc, words, files_of(alloc, film, script)?, failing)
}

/// Plays a script over a film with constants that are right.
pub fn played(alloc: Global, film: &[u8], script: &[u8]) -> Result<Run, AllocError> {
    play_by(alloc, &WORDS, film, script, NOTHING_FAILS)
}

/// Compares the status of a run, its output and its notes.
pub fn assert_ends(
    rt: &impl Abort,
    case: &str,
    run: &Run,
    status: Status,
    out: &[u8],
    notes: &[u8],
) {
    assert_eq!(rt; run.status, status, "{case}");
    assert_eq!(rt; run.out.written(), out, "{case}");
    assert_eq!(rt; run.notes.written(), notes, "{case}");
}
