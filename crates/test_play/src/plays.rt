//! Plays that are done: the report of each is on the output, and nothing is on the notes.

use crate::films;
use crate::session::{HIGH, LOW, Pieces, WORDS, assert_ends, bytes_of, play_by, played};
use player_session::{Status, player_alone};
use std::alloc::Global;
use std::test::Fail;
use test_common::{Failing, NOTHING_FAILS, Parts, joined, words_of};
use vf_outside::{MemShelf, MemSink};

/// What a row shows, a film, a script, and what is reported of all its lanes.
type Play = (&'static str, Parts, &'static str, Pieces);

const PLAYS: [Play; 18] = [
    (
        "one read",
        &films::BASE,
        "lane\nopen 0\nread 0 32\n",
        &[
            ("lane 0\nopen 0 ok\nread 0 frames 0 1 32 ", 1),
            (LOW, 16),
            (HIGH, 16),
            ("\n", 1),
        ],
    ),
    (
        "a silent film, and its end",
        &films::SILENT,
        "lane\nopen 0\nread 0 65536\nread 0 1\n",
        &[
            ("lane 0\nopen 0 ok\nread 0 frames 0 1 64 ", 1),
            (LOW, 64),
            ("\nread 0 end\n", 1),
        ],
    ),
    (
        "a floor that is cut short",
        &films::FLOOR_CUT_SHORT,
        "lane\nopen 0\nread 0 32\n",
        &[
            ("lane 0\nopen 0 ok\nread 0 frames 0 1 32 ", 1),
            ("00e0", 32),
            ("\n", 1),
        ],
    ),
    (
        "a silent block behind a sound",
        &films::SILENT_AT_THE_END,
        "lane\nopen 0\nread 0 32\n",
        &[
            ("lane 0\nopen 0 ok\nread 0 frames 0 1 32 ", 1),
            ("00e0", 32),
            ("\n", 1),
        ],
    ),
    (
        "cut at the end",
        &films::CUT_AT_THE_END,
        "lane\nopen 0\nread 0 64\n",
        &[
            ("lane 0\nopen 0 ok\nread 0 frames 0 1 40 ", 1),
            (LOW, 16),
            (HIGH, 16),
            (LOW, 8),
            ("\n", 1),
        ],
    ),
    (
        "cut at the front",
        &films::BEGINS_LATE,
        "lane\nopen 0\nread 0 8\n",
        &[
            ("lane 0\nopen 0 ok\nread 0 frames 0 1 8 ", 1),
            (LOW, 4),
            (HIGH, 4),
            ("\n", 1),
        ],
    ),
    (
        "a packet without bytes",
        &films::EMPTY_PACKET,
        "lane\nopen 0\nread 0 32\n",
        &[
            ("lane 0\nopen 0 ok\nread 0 frames 0 1 32 ", 1),
            (LOW, 16),
            (HIGH, 16),
            ("\n", 1),
        ],
    ),
    (
        "a page missing, told once more after a seek",
        &films::PAGE_MISSING,
        "lane\nopen 0\nread 0 64\nread 0 64\nread 0 64\nread 0 64\nseek 0 32\nread 0 64\n",
        &[
            ("lane 0\nopen 0 ok\nread 0 frames 0 1 32 ", 1),
            (LOW, 16),
            (HIGH, 16),
            ("\nread 0 gap lost\nread 0 frames 0 1 32 ", 1),
            (LOW, 16),
            (HIGH, 16),
            ("\nread 0 end\nseek 0 at 32\nread 0 gap lost\n", 1),
        ],
    ),
    (
        "a gap counts no frames: what is told before it is told behind it",
        &films::PAGE_MISSING,
        "lane\nopen 0\nseek 0 32\ntell 0\nread 0 1\ntell 0\nread 0 1\ntell 0\n",
        &[(
            "lane 0
open 0 ok
seek 0 at 32
tell 0 32
read 0 gap lost
tell 0 32
read 0 frames 0 1 1 0000
tell 0 33
",
            1,
        )],
    ),
    (
        "a bad packet",
        &films::NO_SUCH_MODE,
        "lane\nopen 0\nread 0 64\nread 0 64\nread 0 64\nread 0 64\n",
        &[
            ("lane 0\nopen 0 ok\nread 0 frames 0 1 32 ", 1),
            (LOW, 16),
            (HIGH, 16),
            ("\nread 0 gap bad\nread 0 frames 0 1 32 ", 1),
            (LOW, 16),
            (HIGH, 16),
            ("\nread 0 end\n", 1),
        ],
    ),
    (
        "seeks",
        &films::BASE,
        "lane\nopen 0\nseek 0 32\nread 0 1\nseek 0 5\nseek 0 33\ntell 0\n",
        &[(
            "lane 0
open 0 ok
seek 0 at 32
read 0 end
seek 0 at 5
seek 0 invalid total 32
tell 0 5
",
            1,
        )],
    ),
    (
        "over the border of two links",
        &films::CHAIN,
        "lane\nopen 0\nseek 0 48\nread 0 64\nread 0 64\n",
        &[
            ("lane 0\nopen 0 ok\nseek 0 at 48\nread 0 frames 0 1 16 ", 1),
            (LOW, 16),
            ("\nread 0 frames 1 1 64 ", 1),
            (LOW, 64),
            ("\n", 1),
        ],
    ),
    (
        "one frame of four blocks",
        &films::FOUR_BLOCKS,
        "lane\nopen 0\nseek 0 40\nread 0 1\nseek 0 63\nread 0 1\ntell 0\n",
        &[(
            "lane 0
open 0 ok
seek 0 at 40
read 0 frames 0 1 1 0000
seek 0 at 63
read 0 frames 0 1 1 00c0
tell 0 64
",
            1,
        )],
    ),
    (
        "a line without frames, since a page is not right",
        &films::BODY_CHANGED,
        "lane\nopen 0\nseek 0 0\nread 0 1\n",
        &[("lane 0\nopen 0 ok\nseek 0 at 0\nread 0 end\n", 1)],
    ),
    (
        "cursors that are open and closed",
        &films::BASE,
        "lane\ntell 3\nopen 3\nopen 3\nclose 3\n",
        &[(
            "lane 0\ntell 3 no cursor\nopen 3 ok\nopen 3 already open\nclose 3 ok\n",
            1,
        )],
    ),
    (
        "lanes are apart, and so are cursors",
        &films::BASE,
        "lane\nopen 0\nopen 1\nseek 0 7\nopen 0\ntell 0\ntell 1\nlane\nlane\ntell 0\nclose 0",
        &[(
            "lane 0
open 0 ok
open 1 ok
seek 0 at 7
open 0 already open
tell 0 7
tell 1 0
lane 1
lane 2
tell 0 no cursor
close 0 no cursor
",
            1,
        )],
    ),
    ("an empty script", &films::BASE, "", &[]),
    (
        "two lanes that read the same",
        &films::BASE,
        TWO_LANES,
        &[
            ("lane 0\nopen 0 ok\nread 0 frames 0 1 32 ", 1),
            (LOW, 16),
            (HIGH, 16),
            ("\nlane 1\nopen 0 ok\nread 0 frames 0 1 32 ", 1),
            (LOW, 16),
            (HIGH, 16),
            ("\n", 1),
        ],
    ),
];

/// Two lanes, each of which opens a cursor and reads.
const TWO_LANES: &str = "lane\nopen 0\nread 0 32\nlane\nopen 0\nread 0 32\n";

/// What the first of them is answered.
const FIRST_LANE: Pieces = &[
    ("lane 0\nopen 0 ok\nread 0 frames 0 1 32 ", 1),
    (LOW, 16),
    (HIGH, 16),
    ("\n", 1),
];

#[test]
fn scripts_over_films(rt: HostRuntime) -> Result<(), Fail> {
    for (case, parts, script, pieces) in &PLAYS {
        let film = joined(rt.alloc(), parts)?;
        let run = played(rt.alloc(), &film, script.as_bytes())?;
        let report = bytes_of(rt.alloc(), pieces)?;
        assert_ends(&rt, case, &run, Status::Ok, &report, b"");
    }
    Ok(())
}

#[test]
fn the_greatest_counts(rt: HostRuntime) -> Result<(), Fail> {
    let words = ["play", "c", "f", "s", "16", "1024", "64"];
    let film = joined(rt.alloc(), &films::BASE)?;
    let script = b"lane\nopen 0\nread 0 32\n";
    let run = play_by(rt.alloc(), &words, &film, script, NOTHING_FAILS)?;
    let report = bytes_of(rt.alloc(), FIRST_LANE)?;
    assert_ends(&rt, "the greatest counts", &run, Status::Ok, &report, b"");
    Ok(())
}

/// What a row shows, the numbers of the output's calls that fail, and what was written.
type FailedPut = (&'static str, &'static [u64], Pieces);

const FAILED_PUTS: [FailedPut; 2] = [
    (
        "two lanes that read, and the put of the first fails",
        &[1],
        &[],
    ),
    (
        "two lanes that read, and the put of the second fails",
        &[2],
        FIRST_LANE,
    ),
];

#[test]
fn puts_that_fail(rt: HostRuntime) -> Result<(), Fail> {
    let film = joined(rt.alloc(), &films::BASE)?;
    for (case, out, pieces) in &FAILED_PUTS {
        let failing = Failing {
            out: *out,
            ..NOTHING_FAILS
        };
        let run = play_by(rt.alloc(), &WORDS, &film, TWO_LANES.as_bytes(), failing)?;
        let written = bytes_of(rt.alloc(), pieces)?;
        assert_ends(&rt, case, &run, Status::Output, &written, b"");
    }
    Ok(())
}

/// What a run alone answers to words over a shelf without files, and what is on the notes then.
fn left_to_threads(alloc: Global, words: &[&str]) -> Result<(Option<Status>, usize), Fail> {
    let words = words_of(alloc, words)?;
    let mut shelf = MemShelf::new(alloc, Vec::new(alloc), Vec::new(alloc));
    let mut out = MemSink::new(alloc, Vec::new(alloc));
    let mut notes = MemSink::new(alloc, Vec::new(alloc));
    let answer = player_alone(alloc, &words, &mut shelf, &mut out, &mut notes);
    Ok((answer, notes.written().len()))
}

#[test]
fn plays_and_trials_are_left_to_threads(rt: HostRuntime) -> Result<(), Fail> {
    let trial = ["trial", "7", "0", "1", "1"];
    assert_eq!(rt; left_to_threads(rt.alloc(), &WORDS)?, (None, 0));
    assert_eq!(rt; left_to_threads(rt.alloc(), &trial)?, (None, 0));
    Ok(())
}
