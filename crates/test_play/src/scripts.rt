//! Scripts that are refused: each cause with its line, and which comes first where two meet.

use crate::films;
use crate::session::{Pieces, assert_ends, bytes_of, played};
use player_session::Status;
use std::alloc::Global;
use std::process::Abort;
use std::test::Fail;
use test_common::joined;

/// What a row shows, a script, and the line on the notes.
type Script = (&'static str, Pieces, &'static str);

/// Each cause alone.
const CAUSES: [Script; 9] = [
    (
        "an unknown word",
        &[("lane\nopen 0\njump 0\n", 1)],
        "script line 3 word\n",
    ),
    (
        "an empty line",
        &[("lane\n\nopen 0\n", 1)],
        "script line 2 word\n",
    ),
    (
        "a command before the first lane",
        &[("tell 0\n", 1)],
        "script line 1 no-lane\n",
    ),
    (
        "a number too few",
        &[("lane\nopen 0\nread 0\n", 1)],
        "script line 3 count\n",
    ),
    (
        "a leading zero",
        &[("lane\nopen 00\n", 1)],
        "script line 2 number\n",
    ),
    (
        "a read of no frames",
        &[("lane\nread 0 0\n", 1)],
        "script line 2 range\n",
    ),
    (
        "a cursor past the last",
        &[("lane\nopen 15\nopen 16\n", 1)],
        "script line 3 range\n",
    ),
    (
        "seventeen lanes",
        &[("lane\n", 17)],
        "script line 17 lanes\n",
    ),
    (
        "a frame past 2^22, over two lanes",
        &[
            ("lane\n", 1),
            ("read 0 65536\n", 64),
            ("lane\nread 1 1\n", 1),
        ],
        "script line 67 frames\n",
    ),
];

/// Two causes meet: in a line, in the order of the causes; else the first line counts.
const ORDERS: [Script; 8] = [
    (
        "an unknown word before the first lane",
        &[("jump 0\n", 1)],
        "script line 1 word\n",
    ),
    (
        "no lane, and a wrong count",
        &[("tell\n", 1)],
        "script line 1 no-lane\n",
    ),
    (
        "a wrong count, and a wrong number",
        &[("lane\nread x\n", 1)],
        "script line 2 count\n",
    ),
    (
        "a wrong number behind one out of range",
        &[("lane\nread 16 x\n", 1)],
        "script line 2 number\n",
    ),
    (
        "a read out of range, and past 2^22 frames",
        &[("lane\n", 1), ("read 0 65536\n", 64), ("read 0 65537\n", 1)],
        "script line 66 range\n",
    ),
    (
        "a wrong count, and a lane too many",
        &[("lane\n", 16), ("lane 0\n", 1)],
        "script line 17 count\n",
    ),
    (
        "a lane too many, and an unknown word behind it",
        &[("lane\n", 17), ("jump\n", 1)],
        "script line 17 lanes\n",
    ),
    (
        "a read out of range, and an unknown word behind it",
        &[("lane\nread 0 0\njump\n", 1)],
        "script line 2 range\n",
    ),
];

/// Plays scripts that are refused.
fn assert_refused(rt: &impl Abort, alloc: Global, rows: &[Script]) -> Result<(), Fail> {
    let film = joined(alloc, &films::BASE)?;
    for (case, pieces, line) in rows {
        let script = bytes_of(alloc, pieces)?;
        let run = played(alloc, &film, &script)?;
        assert_ends(rt, case, &run, Status::Script, b"", line.as_bytes());
    }
    Ok(())
}

#[test]
fn causes(rt: HostRuntime) -> Result<(), Fail> {
    assert_refused(&rt, rt.alloc(), &CAUSES)
}

#[test]
fn orders_of_causes(rt: HostRuntime) -> Result<(), Fail> {
    assert_refused(&rt, rt.alloc(), &ORDERS)
}

/// What a row shows, a script at a limit, and what is reported of it: no cursor is open.
type Limit = (&'static str, Pieces, Pieces);

const AT_LIMITS: [Limit; 3] = [
    (
        "sixteen lanes",
        &[("lane\n", 16)],
        &[(
            "lane 0\nlane 1\nlane 2\nlane 3\nlane 4\nlane 5\nlane 6\nlane 7\n\
             lane 8\nlane 9\nlane 10\nlane 11\nlane 12\nlane 13\nlane 14\nlane 15\n",
            1,
        )],
    ),
    (
        "2^22 frames",
        &[("lane\n", 1), ("read 0 65536\n", 64)],
        &[("lane 0\n", 1), ("read 0 65536 no cursor\n", 64)],
    ),
    (
        "2^20 bytes",
        &[("lane\n", 1), ("tell 0\n", 5), ("tell 15\n", 131_067)],
        &[
            ("lane 0\n", 1),
            ("tell 0 no cursor\n", 5),
            ("tell 15 no cursor\n", 131_067),
        ],
    ),
];

#[test]
fn at_the_limits(rt: HostRuntime) -> Result<(), Fail> {
    let film = joined(rt.alloc(), &films::BASE)?;
    for (case, script, report) in &AT_LIMITS {
        let script = bytes_of(rt.alloc(), script)?;
        let report = bytes_of(rt.alloc(), report)?;
        let run = played(rt.alloc(), &film, &script)?;
        assert_ends(&rt, case, &run, Status::Ok, report.as_slice(), b"");
    }
    Ok(())
}

#[test]
fn a_script_of_a_byte_too_many(rt: HostRuntime) -> Result<(), Fail> {
    let film = joined(rt.alloc(), &films::BASE)?;
    let script = bytes_of(rt.alloc(), &[(" ", 1_048_577)])?;
    let run = played(rt.alloc(), &film, &script)?;
    let line = b"too long s 1048576\n";
    assert_ends(&rt, "a byte too many", &run, Status::TooLong, b"", line);
    Ok(())
}
