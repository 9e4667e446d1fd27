use crate::{Answer, Command, LineCause, Script, ScriptFault, Which, reply_text};
use model_cursor::{Frames, Reply};
use model_line::GapKind;
use std::alloc::{AllocError, Global};
use std::test::Fail;

/// What a row shows, a script, and the number and the cause of the line that is refused.
const REFUSED: [(&str, &str, u32, LineCause); 37] = [
    ("an unknown word", "lane\njump 0\n", 2, LineCause::Word),
    (
        "a word that begins like another",
        "lane\nlapse 0 0\n",
        2,
        LineCause::Word,
    ),
    ("an empty line", "lane\n\nopen 0\n", 2, LineCause::Word),
    ("a line feed alone", "\n", 1, LineCause::Word),
    ("capital letters", "Lane\n", 1, LineCause::Word),
    ("a space in front", "lane\n open 0\n", 2, LineCause::Word),
    ("a carriage return", "lane\r\n", 1, LineCause::Word),
    (
        "a command before the first lane",
        "tell 0\n",
        1,
        LineCause::NoLane,
    ),
    (
        "a cross before the first lane",
        "cross 0\n",
        1,
        LineCause::NoLane,
    ),
    (
        "an unknown word before the first lane",
        "jump 0\n",
        1,
        LineCause::Word,
    ),
    (
        "no lane before a wrong count",
        "tell\nlane\n",
        1,
        LineCause::NoLane,
    ),
    ("a word behind `lane`", "lane 0\n", 1, LineCause::Count),
    ("no number", "lane\nopen\n", 2, LineCause::Count),
    ("a number too few", "lane\nseek 0\n", 2, LineCause::Count),
    ("a lap to no place", "lane\nlap 0\n", 2, LineCause::Count),
    (
        "a cross to no cursor",
        "lane\ncross 16\n",
        2,
        LineCause::Count,
    ),
    (
        "a number too many",
        "lane\nread 0 1 1\n",
        2,
        LineCause::Count,
    ),
    ("two spaces", "lane\nopen  0\n", 2, LineCause::Count),
    ("a space at the end", "lane\nopen 0 \n", 2, LineCause::Count),
    (
        "a wrong count before a wrong number",
        "lane\nread x\n",
        2,
        LineCause::Count,
    ),
    (
        "a space and no number",
        "lane\nopen \n",
        2,
        LineCause::Number,
    ),
    ("a plus", "lane\nseek 0 +1\n", 2, LineCause::Number),
    ("a minus", "lane\nseek 0 -1\n", 2, LineCause::Number),
    ("a leading zero", "lane\nopen 01\n", 2, LineCause::Number),
    ("two zeros", "lane\nopen 00\n", 2, LineCause::Number),
    ("a letter", "lane\nseek 0 1a\n", 2, LineCause::Number),
    (
        "2^64",
        "lane\nseek 0 18446744073709551616\n",
        2,
        LineCause::Number,
    ),
    (
        "a lap to 2^64",
        "lane\nlap 16 18446744073709551616\n",
        2,
        LineCause::Number,
    ),
    (
        "a cross to a wrong number",
        "lane\ncross 16 01\n",
        2,
        LineCause::Number,
    ),
    (
        "a wrong number behind one out of range",
        "lane\nread 16 x\n",
        2,
        LineCause::Number,
    ),
    (
        "a cursor past the last",
        "lane\nclose 16\n",
        2,
        LineCause::Range,
    ),
    (
        "a lap of a cursor past the last",
        "lane\nlap 16 0\n",
        2,
        LineCause::Range,
    ),
    (
        "a cross to a cursor past the last",
        "lane\ncross 15 16\n",
        2,
        LineCause::Range,
    ),
    (
        "a read of no frame",
        "lane\nread 0 0\n",
        2,
        LineCause::Range,
    ),
    (
        "a read of 65,537 frames",
        "lane\nread 0 65537\n",
        2,
        LineCause::Range,
    ),
    (
        "the first of two lines",
        "lane\nread 0 0\nread\n",
        2,
        LineCause::Range,
    ),
    (
        "the last line without its end",
        "lane\ntell 0\ntell 99",
        3,
        LineCause::Range,
    ),
];

/// Why a script is refused, if it is.
fn refusal(alloc: Global, script: &[u8]) -> Option<ScriptFault> {
    if script.len() > 1 << 20 {
        return None;
    }
    Script::read(alloc, script).err()
}

#[test]
fn tells_the_first_cause(rt: HostRuntime) -> Result<(), Fail> {
    for (name, script, number, cause) in &REFUSED {
        let expected = ScriptFault::Line {
            number: *number,
            cause: *cause,
        };
        assert_eq!(rt;
            refusal(rt.alloc(), script.as_bytes()),
            Some(expected),
            "{name}"
        );
    }
    let expected = ScriptFault::Line {
        number: 2,
        cause: LineCause::Number,
    };
    assert_eq!(rt;
        refusal(rt.alloc(), b"lane\nopen \xff\n"),
        Some(expected),
        "no text"
    );
    Ok(())
}

/// So many lines that are the same, and a line behind them.
fn repeated(
    alloc: Global,
    first: &str,
    line: &str,
    count: u32,
    last: &str,
) -> Result<Vec<u8>, AllocError> {
    let mut script = Vec::from_slice(alloc, first.as_bytes())?;
    for _ in 0..count {
        script.extend_from_slice(line.as_bytes())?;
    }
    script.extend_from_slice(last.as_bytes())?;
    Ok(script)
}

/// What a row shows; a first line, a line that is repeated and how often, and the last lines; and
/// the limit that is passed and the number of the line, if there is one.
const LIMITS: [(&str, (&str, &str, u32, &str), Option<(Which, u32)>); 6] = [
    ("sixteen lanes", ("", "lane\n", 16, ""), None),
    (
        "seventeen",
        ("", "lane\n", 16, "lane\n"),
        Some((Which::Lanes, 17)),
    ),
    (
        "a lane too many before an unknown word",
        ("", "lane\n", 16, "lane\njump\n"),
        Some((Which::Lanes, 17)),
    ),
    ("2^22 frames", ("lane\n", "read 0 65536\n", 64, ""), None),
    (
        "one more",
        ("lane\n", "read 0 65536\n", 64, "lane\nread 1 1\n"),
        Some((Which::Frames, 67)),
    ),
    (
        "too many frames, a seek among the reads",
        (
            "lane\n",
            "read 0 65536\n",
            63,
            "read 0 65535\nseek 0 1\nread 0 2",
        ),
        Some((Which::Frames, 67)),
    ),
];

#[test]
fn tells_the_line_that_passes_a_limit(rt: HostRuntime) -> Result<(), Fail> {
    for (name, (first, line, count, last), limit) in &LIMITS {
        let script = repeated(rt.alloc(), first, line, *count, last)?;
        let expected = limit.map(|(which, number)| ScriptFault::Limit { which, number });
        assert_eq!(rt; refusal(rt.alloc(), &script), expected, "{name}");
    }
    Ok(())
}

/// A script with each command, at the ends of the ranges.
const SCRIPT: &str = "lane\nopen 0\nread 15 65536\nread 1 1\nseek 2 0\n\
    seek 2 18446744073709551615\nlap 0 18446744073709551615\ncross 15 0\n\
    lane\nlane\ntell 9\nclose 10";

/// The commands of its first lane.
const FIRST: [Command; 7] = [
    Command::Open { c: 0 },
    Command::Read { c: 15, n: 65536 },
    Command::Read { c: 1, n: 1 },
    Command::Seek { c: 2, p: 0 },
    Command::Seek {
        c: 2,
        p: 18446744073709551615,
    },
    Command::Lap {
        c: 0,
        p: 18446744073709551615,
    },
    Command::Cross { c: 15, d: 0 },
];

/// The commands of its third lane; its second has none.
const THIRD: [Command; 2] = [Command::Tell { c: 9 }, Command::Close { c: 10 }];

#[test]
fn gives_the_commands_of_each_lane(rt: HostRuntime) -> Result<(), Fail> {
    let none = Script::read(rt.alloc(), b"")?;
    assert_eq!(rt; none.lanes(), 0, "a script without bytes");
    let script = Script::read(rt.alloc(), SCRIPT.as_bytes())?;
    assert_eq!(rt; script.lanes(), 3);
    assert_eq!(rt; script.commands(0), FIRST.as_slice());
    assert_eq!(rt; script.commands(1).len(), 0);
    assert_eq!(rt; script.commands(2), THIRD.as_slice());
    Ok(())
}

/// The line of an answer, behind a byte that is there.
fn line(alloc: Global, command: &Command, answer: &Answer, channels: u8) -> Result<Vec<u8>, Fail> {
    let mut out = Vec::from_slice(alloc, b"!")?;
    reply_text(command, answer, channels, &mut out)?;
    Ok(out)
}

#[test]
fn writes_answers(rt: HostRuntime) -> Result<(), Fail> {
    let open = Command::Open { c: 3 };
    let opened = line(rt.alloc(), &open, &Answer::Ok, 1)?;
    assert_eq!(rt; opened.as_slice(), b"!open 3 ok\n".as_slice());
    let again = line(rt.alloc(), &open, &Answer::AlreadyOpen, 1)?;
    assert_eq!(rt; again.as_slice(), b"!open 3 already open\n".as_slice());
    let read = Command::Read { c: 15, n: 65536 };
    let closed = line(rt.alloc(), &read, &Answer::NoCursor, 1)?;
    assert_eq!(rt; closed.as_slice(), b"!read 15 65536 no cursor\n".as_slice());
    let cross = Command::Cross { c: 15, d: 0 };
    let crossed = line(rt.alloc(), &cross, &Answer::Ok, 1)?;
    assert_eq!(rt; crossed.as_slice(), b"!cross 15 0 ok\n".as_slice());
    let stays = line(rt.alloc(), &cross, &Answer::NoCursor, 1)?;
    assert_eq!(rt; stays.as_slice(), b"!cross 15 0 no cursor\n".as_slice());
    let tell = Command::Tell { c: 0 };
    let told = line(rt.alloc(), &tell, &Answer::Told { place: 4194304 }, 1)?;
    assert_eq!(rt; told.as_slice(), b"!tell 0 4194304\n".as_slice());
    Ok(())
}

/// The line of a cursor's reply to a command.
fn given(alloc: Global, command: &Command, reply: Reply) -> Result<Vec<u8>, Fail> {
    line(alloc, command, &Answer::Given { reply }, 2)
}

#[test]
fn writes_what_cursors_reply(rt: HostRuntime) -> Result<(), Fail> {
    let seek = Command::Seek { c: 1, p: 33 };
    let at = given(rt.alloc(), &seek, Reply::At { place: 33 })?;
    assert_eq!(rt; at.as_slice(), b"!seek 1 at 33\n".as_slice());
    let invalid = given(rt.alloc(), &seek, Reply::Invalid { total: 32 })?;
    assert_eq!(rt;
        invalid.as_slice(),
        b"!seek 1 invalid total 32\n".as_slice()
    );
    let lap = Command::Lap { c: 2, p: 33 };
    let over = given(rt.alloc(), &lap, Reply::At { place: 33 })?;
    assert_eq!(rt; over.as_slice(), b"!lap 2 at 33\n".as_slice());
    let past = given(rt.alloc(), &lap, Reply::Invalid { total: 32 })?;
    assert_eq!(rt; past.as_slice(), b"!lap 2 invalid total 32\n".as_slice());
    let read = Command::Read { c: 0, n: 9 };
    let lost = given(
        rt.alloc(),
        &read,
        Reply::Gap {
            kind: GapKind::Lost,
        },
    )?;
    assert_eq!(rt; lost.as_slice(), b"!read 0 gap lost\n".as_slice());
    let bad = given(rt.alloc(), &read, Reply::Gap { kind: GapKind::Bad })?;
    assert_eq!(rt; bad.as_slice(), b"!read 0 gap bad\n".as_slice());
    let end = given(rt.alloc(), &read, Reply::End)?;
    assert_eq!(rt; end.as_slice(), b"!read 0 end\n".as_slice());
    let values = [0i64, 0, -262144, -65536, 1048575, -1048576].to_vec(rt.alloc())?;
    let frames = Frames::of(2, values);
    let text = given(rt.alloc(), &read, Reply::Frames { link: 7, frames })?;
    let expected = b"!read 0 frames 7 2 3 0000000000e000f8ff7f0080\n";
    assert_eq!(rt; text.as_slice(), expected.as_slice());
    Ok(())
}
