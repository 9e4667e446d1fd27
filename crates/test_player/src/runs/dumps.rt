//! `dump`: the samples of films, and what it refuses.

use super::*;
use test_common::constants;

/// The samples of one channel: two bytes, and how often they come.
type Samples = &'static [([u8; 2], u32)];

/// The bytes of samples, so many times.
fn bytes_of(alloc: Global, samples: Samples, times: u32) -> Result<Vec<u8>, AllocError> {
    let mut bytes = Vec::new(alloc);
    for _ in 0..times {
        for (sample, count) in samples {
            for _ in 0..*count {
                bytes.extend_from_slice(sample)?;
            }
        }
    }
    Ok(bytes)
}

/// The samples of the base film: 16 times 0, and 16 times -16384.
const BASE_SAMPLES: Samples = &[([0, 0], 16), ([0, 0xc0], 16)];

/// What a row shows, a film, and its samples.
const FILMS: [(&str, Parts, Samples); 3] = [
    ("base", &films::BASE, BASE_SAMPLES),
    (
        "cut at the end",
        &films::CUT_AT_THE_END,
        &[([0, 0], 16), ([0, 0xc0], 16), ([0, 0], 8)],
    ),
    ("a body changed", &films::BODY_CHANGED, &[]),
];

const WORDS: [&str; 3] = ["dump", "c", "f"];

#[test]
fn samples_of_films(rt: HostRuntime) -> Result<(), Fail> {
    let constants = constants(rt.alloc(), None)?;
    for (case, parts, samples) in &FILMS {
        let film = joined(rt.alloc(), parts)?;
        let files = [("c", constants.as_slice()), ("f", film.as_slice())];
        let run = run_words(rt.alloc(), &WORDS, &files, NOTHING_FAILS)?;
        let samples = bytes_of(rt.alloc(), samples, 1)?;
        assert_ends(&rt, case, &run, Status::Ok, &samples, b"");
    }
    Ok(())
}

/// What a row shows, how many bytes of the constants there are, a cosine of another value, and the
/// text of the line. The film of each row is none, and is not judged.
const REFUSED_CONSTANTS: [(&str, usize, Option<(usize, u32)>, &str); 4] = [
    ("no bytes", 0, None, "constants magic"),
    ("seven bytes", 7, None, "constants magic"),
    ("a byte less", 66439, None, "constants length 66439"),
    (
        "a cosine above 1",
        66440,
        Some((5, 8388609)),
        "constants range 8421 8388609",
    ),
];

/// What a row shows, words, the status, and the text of the line. The film of each row is none.
const REFUSED_WORDS: [(&str, &[&str], Status, &str); 5] = [
    ("no film", &["dump", "c"], Status::Usage, "usage"),
    (
        "a word more",
        &["dump", "c", "f", "f"],
        Status::Usage,
        "usage",
    ),
    (
        "no such constants",
        &["dump", "g", "f"],
        Status::Input,
        "cannot read g",
    ),
    (
        "no such film",
        &["dump", "c", "g"],
        Status::Input,
        "cannot read g",
    ),
    ("no link", &["dump", "c", "f"], Status::Film, "film no link"),
];

#[test]
fn refused_dumps(rt: HostRuntime) -> Result<(), Fail> {
    for (case, size, other, text) in &REFUSED_CONSTANTS {
        let mut bytes = constants(rt.alloc(), *other)?;
        bytes.truncate(*size);
        let files = [("c", bytes.as_slice()), ("f", b"".as_slice())];
        let refusal = (Status::Constants, *text);
        assert_refused(&rt, rt.alloc(), case, &WORDS, &files, refusal)?;
    }
    let right = constants(rt.alloc(), None)?;
    for (case, words, status, text) in &REFUSED_WORDS {
        let files = [("c", right.as_slice()), ("f", b"".as_slice())];
        assert_refused(&rt, rt.alloc(), case, words, &files, (*status, *text))?;
    }
    Ok(())
}

/// A shelf that tells nothing, gives these bytes for the name `c`, and answers `TooLong` for each
/// other.
#[derive(Drop)]
struct LongShelf {
    constants: Vec<u8>,
}

impl Shelf for LongShelf {
    ghost use Rattle.std.specs.Prelude.{None};

    ghost told = { λ _ _. None };

    ghost faults = { λ _ _. 0 };

    fn fetch(&mut self, alloc: Global, name: &str, limit: u64) -> Result<Vec<u8>, FetchFault> {
        if name != "c" || self.constants.len() as u64 > limit {
            return Err(FetchFault::TooLong);
        }
        Ok(self.constants.to_vec(alloc)?)
    }
}

/// What a row shows, how many bytes the constants have, and the line.
const TOO_LONG: [(&str, usize, &str); 2] = [
    ("constants", 131_073, "too long c 131072\n"),
    ("a film", 66_440, "too long f 268435456\n"),
];

#[test]
fn files_that_are_too_long(rt: HostRuntime) -> Result<(), Fail> {
    let alloc = rt.alloc();
    let words = words_of(alloc, &WORDS)?;
    for (case, size, line) in &TOO_LONG {
        let mut bytes = constants(alloc, None)?;
        bytes.resize(*size, 0)?;
        let mut shelf = LongShelf { constants: bytes };
        let mut out = MemSink::new(alloc, Vec::new(alloc));
        let mut notes = MemSink::new(alloc, Vec::new(alloc));
        let status = player(alloc, &words, &mut shelf, &mut out, &mut notes, &OpenGate);
        let run = Run { status, out, notes };
        assert_ends(&rt, case, &run, Status::TooLong, b"", line.as_bytes());
    }
    Ok(())
}

/// What a row shows, the numbers of the puts that fail, and how many of the base film's dumps are
/// written before.
const FAILED_PUTS: [(&str, &[u64], u32); 2] = [
    ("the first put", &[1], 0),
    ("the second, behind 65,536 bytes", &[2], 1024),
];

#[test]
fn failed_puts(rt: HostRuntime) -> Result<(), Fail> {
    let constants = constants(rt.alloc(), None)?;
    let film = base_films(rt.alloc(), 1025)?;
    let files = [("c", constants.as_slice()), ("f", film.as_slice())];
    for (case, out, times) in &FAILED_PUTS {
        let failing = Failing {
            out: *out,
            ..NOTHING_FAILS
        };
        let run = run_words(rt.alloc(), &WORDS, &files, failing)?;
        let written = bytes_of(rt.alloc(), BASE_SAMPLES, *times)?;
        assert_ends(&rt, case, &run, Status::Output, &written, b"");
    }
    Ok(())
}
