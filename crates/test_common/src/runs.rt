use player_session::{Status, player};
use std::alloc::{AllocError, Global};
use vf_outside::{MemShelf, MemSink, OpenGate};

/// A film, by its parts.
pub type Parts = &'static [&'static [u8]];

/// The bytes of a film of these parts, one after the other.
///
/// # Errors
///
/// Only where no memory was found.
pub fn joined(alloc: Global, parts: &[&[u8]]) -> Result<Vec<u8>, AllocError> {
    let mut film = Vec::new(alloc);
    for part in parts {
        film.extend_from_slice(part)?;
    }
    Ok(film)
}

/// The numbers of the calls that fail, counted from 1.
#[derive(Clone, Copy)]
pub struct Failing {
    /// Fetches of the shelf.
    pub shelf: &'static [u64],
    /// Puts of the output.
    pub out: &'static [u64],
    /// Puts of the notes.
    pub notes: &'static [u64],
}

/// No call fails.
pub const NOTHING_FAILS: Failing = Failing {
    shelf: &[],
    out: &[],
    notes: &[],
};

/// A run over memory.
#[derive(Drop)]
pub struct Run {
    /// What was answered.
    pub status: Status,
    /// The output.
    pub out: MemSink,
    /// The notes.
    pub notes: MemSink,
}

/// These words, as the program has them.
///
/// # Errors
///
/// Only where no memory was found.
pub fn words_of(alloc: Global, words: &[&str]) -> Result<Vec<String>, AllocError> {
    let mut given = Vec::new(alloc);
    for word in words {
        given.push(String::from_str(alloc, word)?)?;
    }
    Ok(given)
}

/// Files, by their names.
pub type Files<'a> = &'a [(&'a str, &'a [u8])];

/// These files, as a shelf has them.
///
/// # Errors
///
/// Only where no memory was found.
pub fn files_of(alloc: Global, files: Files<'_>) -> Result<Vec<(String, Vec<u8>)>, AllocError> {
    let mut held = Vec::new(alloc);
    for (name, bytes) in files {
        held.push((String::from_str(alloc, name)?, bytes.to_vec(alloc)?))?;
    }
    Ok(held)
}

/// Runs these words over a shelf that holds these files.
///
/// # Errors
///
/// Only where no memory was found for the words and for the calls that fail.
pub fn run_over(
    alloc: Global,
    words: &[&str],
    files: Vec<(String, Vec<u8>)>,
    failing: Failing,
) -> Result<Run, AllocError> {
    let words = words_of(alloc, words)?;
    let mut shelf = MemShelf::new(alloc, files, failing.shelf.to_vec(alloc)?);
    let mut out = MemSink::new(alloc, failing.out.to_vec(alloc)?);
    let mut notes = MemSink::new(alloc, failing.notes.to_vec(alloc)?);
    let status = player(alloc, &words, &mut shelf, &mut out, &mut notes, &OpenGate);
    Ok(Run { status, out, notes })
}

/// Runs these words over a shelf that holds copies of these files.
///
/// # Errors
///
/// Only where no memory was found for the words, the files and the calls that fail.
pub fn run_words(
    alloc: Global,
    words: &[&str],
    files: Files<'_>,
    failing: Failing,
) -> Result<Run, AllocError> {
    run_over(alloc, words, files_of(alloc, files)?, failing)
}
