//! Plays that are refused before the script is judged: by words, by files, by constants and by
//! films.

use crate::films;
use crate::session::{WORDS, assert_ends, play_by, played};
use player_session::Status;
use std::test::Fail;
use test_common::{NOTHING_FAILS, Parts, constants, joined, run_words};

/// What a row shows, words, the status, and the line on the notes. The script is refused too.
type Words = (&'static str, &'static [&'static str], Status, &'static str);

const REFUSED_WORDS: [Words; 10] = [
    (
        "two names and no more",
        &["play", "a", "b"],
        Status::Usage,
        "usage\n",
    ),
    (
        "a word too few",
        &["play", "c", "f", "s", "0", "8"],
        Status::Usage,
        "usage\n",
    ),
    (
        "a helper too many",
        &["play", "c", "f", "s", "17", "8", "1"],
        Status::Usage,
        "usage\n",
    ),
    (
        "no slots for blocks",
        &["play", "c", "f", "s", "0", "0", "1"],
        Status::Usage,
        "usage\n",
    ),
    (
        "a slot for setups too many",
        &["play", "c", "f", "s", "0", "8", "65"],
        Status::Usage,
        "usage\n",
    ),
    (
        "a leading zero",
        &["play", "c", "f", "s", "00", "8", "1"],
        Status::Usage,
        "usage\n",
    ),
    (
        "no such constants",
        &["play", "g", "h", "t", "0", "8", "1"],
        Status::Input,
        "cannot read g\n",
    ),
    (
        "no such film",
        &["play", "c", "h", "t", "0", "8", "1"],
        Status::Input,
        "cannot read h\n",
    ),
    (
        "no such script",
        &["play", "c", "f", "t", "0", "8", "1"],
        Status::Input,
        "cannot read t\n",
    ),
    (
        "constants that are none, and no such film",
        &["play", "f", "h", "s", "0", "8", "1"],
        Status::Constants,
        "constants magic\n",
    ),
];

#[test]
fn words_that_are_refused(rt: HostRuntime) -> Result<(), Fail> {
    let film = joined(rt.alloc(), &films::BASE)?;
    for (case, words, status, line) in &REFUSED_WORDS {
        let run = play_by(rt.alloc(), words, &film, b"tell 0\n", NOTHING_FAILS)?;
        assert_ends(&rt, case, &run, *status, b"", line.as_bytes());
    }
    Ok(())
}

/// What a row shows, how many bytes of the constants there are, a cosine of another value, and the
/// line on the notes.
type Numbers = (&'static str, usize, Option<(usize, u32)>, &'static str);

const REFUSED_CONSTANTS: [Numbers; 2] = [
    (
        "a cosine above 1",
        66_440,
        Some((5, 8_388_609)),
        "constants range 8421 8388609\n",
    ),
    (
        "the last byte missing",
        66_439,
        None,
        "constants length 66439\n",
    ),
];

#[test]
fn constants_that_are_refused(rt: HostRuntime) -> Result<(), Fail> {
    let film = joined(rt.alloc(), &films::BASE)?;
    for (case, size, other, line) in &REFUSED_CONSTANTS {
        let mut bytes = constants(rt.alloc(), *other)?;
        bytes.truncate(*size);
        let files = [
            ("c", bytes.as_slice()),
            ("f", film.as_slice()),
            ("s", b"tell 0\n".as_slice()),
        ];
        let run = run_words(rt.alloc(), &WORDS, &files, NOTHING_FAILS)?;
        assert_ends(&rt, case, &run, Status::Constants, b"", line.as_bytes());
    }
    Ok(())
}

/// What a row shows, a film, and the line on the notes. The script is refused too.
type Film = (&'static str, Parts, &'static str);

const REFUSED_FILMS: [Film; 4] = [
    ("an empty film file", &[], "film no link\n"),
    (
        "a floor of type 0",
        &films::FLOOR_OF_TYPE_0,
        "film link 0 setup floor-zero 0\n",
    ),
    (
        "a book of 2^24 - 1 entries",
        &films::BOOK_TOO_LARGE,
        "film link 0 setup book-limit 0\n",
    ),
    (
        "a first page of another codec",
        &films::NO_VORBIS,
        "film link 0 no vorbis\n",
    ),
];

#[test]
fn films_that_are_refused(rt: HostRuntime) -> Result<(), Fail> {
    for (case, parts, line) in &REFUSED_FILMS {
        let film = joined(rt.alloc(), parts)?;
        let run = played(rt.alloc(), &film, b"tell 0\n")?;
        assert_ends(&rt, case, &run, Status::Film, b"", line.as_bytes());
    }
    Ok(())
}
