//! `player_session`: films and words, and what a run over memory writes.

mod dumps;
mod films;
mod library_example;

use player_session::{Status, player, player_alone};
use std::alloc::{AllocError, Global};
use std::process::Abort;
use std::test::Fail;
use test_common::{
    Failing, Files, NOTHING_FAILS, Parts, Run, files_of, joined, run_words, words_of,
};
use vf_outside::{
    CleanShelf, CleanSink, FetchFault, MemShelf, MemSink, OpenGate, PutFault, Shelf, Sink,
};

fn assert_ends(rt: &impl Abort, case: &str, run: &Run, status: Status, out: &[u8], notes: &[u8]) {
    assert_eq!(rt; run.status, status, "{case}");
    assert_eq!(rt; run.out.written(), out, "{case}");
    assert_eq!(rt; run.notes.written(), notes, "{case}");
}

const HEAD: &str = "head 0 channels 1 rate 8000 blocks 64 64";

/// A film of one link: what it shows, its parts, what `info` counts, and how many frames and gaps
/// its line has.
#[derive(Clone, Copy)]
struct OneLink {
    case: &'static str,
    parts: Parts,
    counts: &'static str,
    frames: u64,
    gaps: u64,
}

macro_rules! one_link {
    ($case:expr, $parts:ident, $counts:expr, $frames:expr, $gaps:expr) => {
        OneLink {
            case: $case,
            parts: &films::$parts,
            counts: $counts,
            frames: $frames,
            gaps: $gaps,
        }
    };
}

/// Two neighbouring blocks of 64 give 32 frames, and a gap parts them.
const ONE_LINK: [OneLink; 20] = [
    one_link!("base", BASE, "pages 3 packets 5 lost 0", 32, 0),
    one_link!(
        "an empty packet",
        EMPTY_PACKET,
        "pages 3 packets 6 lost 0",
        32,
        0
    ),
    one_link!(
        "a page missing",
        PAGE_MISSING,
        "pages 4 packets 7 lost 1",
        64,
        1
    ),
    one_link!(
        "a body changed",
        BODY_CHANGED,
        "pages 2 packets 3 lost 0",
        0,
        0
    ),
    one_link!(
        "garbage between",
        GARBAGE_BETWEEN,
        "pages 3 packets 5 lost 0",
        32,
        0
    ),
    one_link!(
        "a page after the last",
        THIRD_PAGE_AGAIN,
        "pages 3 packets 5 lost 0",
        32,
        0
    ),
    one_link!(
        "a page twice",
        SECOND_PAGE_TWICE,
        "pages 4 packets 7 lost 1",
        32,
        1
    ),
    one_link!(
        "a packet over three pages",
        THREE_PAGE_PACKET,
        "pages 5 packets 4 lost 0",
        0,
        0
    ),
    one_link!(
        "nothing to go on with",
        CONTINUES_NOTHING,
        "pages 4 packets 6 lost 1",
        64,
        1
    ),
    one_link!(
        "a page without segments",
        EMPTY_PAGE,
        "pages 5 packets 4 lost 0",
        0,
        0
    ),
    one_link!(
        "numbers that wrap",
        NUMBERS_WRAP,
        "pages 3 packets 5 lost 0",
        32,
        0
    ),
    one_link!(
        "cut at the end",
        CUT_AT_THE_END,
        "pages 3 packets 6 lost 0",
        40,
        0
    ),
    one_link!(
        "begins late",
        BEGINS_LATE,
        "pages 4 packets 7 lost 0",
        52,
        0
    ),
    one_link!(
        "no such mode",
        NO_SUCH_MODE,
        "pages 3 packets 8 lost 0",
        64,
        1
    ),
    one_link!(
        "a header behind",
        HEADER_BEHIND,
        "pages 3 packets 5 lost 0",
        32,
        0
    ),
    one_link!(
        "the last byte missing",
        LAST_BYTE_MISSING,
        "pages 2 packets 3 lost 0",
        0,
        0
    ),
    one_link!(
        "a granule too far",
        FAR_GRANULE,
        "pages 3 packets 5 lost 0",
        32,
        0
    ),
    one_link!("no granule", NO_GRANULE, "pages 3 packets 5 lost 0", 32, 0),
    one_link!("granule 0", GRANULE_0, "pages 3 packets 5 lost 0", 0, 0),
    one_link!(
        "empty packets",
        EMPTY_PACKETS,
        "pages 3 packets 258 lost 0",
        0,
        0
    ),
];

/// The lines of a film of one link with these counts, frames and gaps.
fn lines_of(alloc: Global, counts: &str, frames: u64, gaps: u64) -> Result<String, AllocError> {
    format!(in alloc;
        "link 0 serial 1 {counts}\n{HEAD}\nline 0 frames {frames} gaps {gaps}\ntotal {frames}\n"
    )
}

#[test]
fn films_of_one_link(rt: HostRuntime) -> Result<(), Fail> {
    for row in &ONE_LINK {
        let film = joined(rt.alloc(), row.parts)?;
        let run = run_words(rt.alloc(), &["info", "f"], &[("f", &film)], NOTHING_FAILS)?;
        let lines = lines_of(rt.alloc(), row.counts, row.frames, row.gaps)?;
        assert_ends(&rt, row.case, &run, Status::Ok, lines.as_bytes(), b"");
    }
    Ok(())
}

/// Films of more links or streams: what each shows, its parts, and what `info` writes.
const MORE_LINKS: [(&str, Parts, &str); 2] = [
    (
        "a chain",
        &films::CHAIN,
        "link 0 serial 1 pages 3 packets 6 lost 0
head 0 channels 1 rate 8000 blocks 64 64
line 0 frames 64 gaps 0
link 1 serial 2 pages 3 packets 6 lost 0
head 1 channels 1 rate 16000 blocks 64 64
line 1 frames 64 gaps 0
total 128
",
    ),
    (
        "two streams",
        &films::TWO_STREAMS,
        "link 0 serial 1 pages 3 packets 5 lost 0
head 0 channels 2 rate 8000 blocks 64 64
line 0 frames 32 gaps 0
total 32
",
    ),
];

#[test]
fn chains_and_streams(rt: HostRuntime) -> Result<(), Fail> {
    for (case, parts, lines) in &MORE_LINKS {
        let film = joined(rt.alloc(), parts)?;
        let run = run_words(rt.alloc(), &["info", "f"], &[("f", &film)], NOTHING_FAILS)?;
        assert_ends(&rt, case, &run, Status::Ok, lines.as_bytes(), b"");
    }
    Ok(())
}

/// So many base films, one after the other.
fn base_films(alloc: Global, count: u32) -> Result<Vec<u8>, AllocError> {
    let base = joined(alloc, &films::BASE)?;
    let mut chain = Vec::new(alloc);
    for _ in 0..count {
        chain.extend_from_slice(&base)?;
    }
    Ok(chain)
}

#[test]
fn the_most_links(rt: HostRuntime) -> Result<(), Fail> {
    let most = base_films(rt.alloc(), 4096)?;
    let most = run_words(rt.alloc(), &["info", "f"], &[("f", &most)], NOTHING_FAILS)?;
    assert_eq!(rt; most.status, Status::Ok);
    let many = base_films(rt.alloc(), 4097)?;
    let many = run_words(rt.alloc(), &["info", "f"], &[("f", &many)], NOTHING_FAILS)?;
    let line = b"film too many links\n";
    assert_ends(&rt, "4097 links", &many, Status::Film, b"", line);
    Ok(())
}

/// A film with many packets: the headers, 16,383 pages of 255 packets, each of them behind a loss,
/// and a last page behind one more loss. A page of 252 packets makes 2^22 entries.
fn film_of_many(alloc: Global, last: &[u8]) -> Result<Vec<u8>, AllocError> {
    let mut film = joined(alloc, &films::BASE[..2])?;
    for _ in 0..16_383 {
        film.extend_from_slice(&films::FULL_PAGE)?;
    }
    film.extend_from_slice(last)?;
    Ok(film)
}

#[test]
fn the_most_packets(rt: HostRuntime) -> Result<(), Fail> {
    let most = film_of_many(rt.alloc(), &films::FULL_TO_THE_MOST)?;
    let most = run_words(rt.alloc(), &["info", "f"], &[("f", &most)], NOTHING_FAILS)?;
    let counts = "pages 16386 packets 4177920 lost 16384";
    let lines = lines_of(rt.alloc(), counts, 0, 16384)?;
    assert_ends(
        &rt,
        "2^22 entries",
        &most,
        Status::Ok,
        lines.as_bytes(),
        b"",
    );
    let many = film_of_many(rt.alloc(), &films::FULL_AND_ONE_MORE)?;
    let many = run_words(rt.alloc(), &["info", "f"], &[("f", &many)], NOTHING_FAILS)?;
    let line = b"film too many packets\n";
    assert_ends(&rt, "2^22 + 1 entries", &many, Status::Film, b"", line);
    Ok(())
}

/// Words that are refused with a film that is none: what each shows, the words, the status, and the
/// text of the line.
const REFUSED_WORDS: [(&str, &[&str], Status, &str); 5] = [
    ("no words", &[], Status::Usage, "usage"),
    ("two names", &["info", "a", "b"], Status::Usage, "usage"),
    ("another word", &["inf", "f"], Status::Usage, "usage"),
    (
        "no such name",
        &["info", "g"],
        Status::Input,
        "cannot read g",
    ),
    ("no bytes", &["info", "f"], Status::Film, "film no link"),
];

/// Films that are refused: what each shows, its parts, and the text of the line.
const REFUSED_FILMS: [(&str, Parts, &str); 13] = [
    ("another codec", &films::NO_VORBIS, "film link 0 no vorbis"),
    (
        "no second page",
        &films::NO_SECOND_PAGE,
        "film link 0 headers missing",
    ),
    (
        "one page",
        &films::FIRST_PAGE_ALONE,
        "film link 0 headers missing",
    ),
    (
        "pages exchanged",
        &films::PAGES_EXCHANGED,
        "film link 0 headers missing",
    ),
    (
        "nine channels",
        &films::NINE_CHANNELS,
        "film link 0 channels 9",
    ),
    (
        "channels and comment",
        &films::NINE_CHANNELS_AND_COMMENT,
        "film link 0 channels 9",
    ),
    (
        "a comment",
        &films::WRONG_COMMENT,
        "film link 0 comment framing",
    ),
    (
        "a version",
        &films::WRONG_VERSION,
        "film link 0 ident version",
    ),
    (
        "a floor of type 0",
        &films::FLOOR_OF_TYPE_0,
        "film link 0 setup floor-zero 0",
    ),
    (
        "a book that is too large",
        &films::BOOK_TOO_LARGE,
        "film link 0 setup book-limit 0",
    ),
    (
        "a run of three in a book of two",
        &films::RUN_PAST_THE_END,
        "film link 0 setup book-tree 0",
    ),
    (
        "a codeword of 33 bits",
        &films::LENGTH_OF_33,
        "film link 0 setup book-tree 0",
    ),
    (
        "comment and setup",
        &films::WRONG_COMMENT_AND_SETUP,
        "film link 0 comment framing",
    ),
];

/// Runs words that are refused with this status and this text: the line is on `notes`, or the
/// status is 7 where it cannot be put.
fn assert_refused(
    rt: &impl Abort,
    alloc: Global,
    case: &str,
    words: &[&str],
    files: Files<'_>,
    (status, text): (Status, &str),
) -> Result<(), Fail> {
    let line = format!(in alloc; "{text}\n")?;
    let noted = run_words(alloc, words, files, NOTHING_FAILS)?;
    assert_ends(rt, case, &noted, status, b"", line.as_bytes());
    let failing = Failing {
        notes: &[1],
        ..NOTHING_FAILS
    };
    let unwritten = run_words(alloc, words, files, failing)?;
    assert_ends(rt, case, &unwritten, Status::Output, b"", b"");
    Ok(())
}

#[test]
fn refusals(rt: HostRuntime) -> Result<(), Fail> {
    for (case, words, status, text) in &REFUSED_WORDS {
        assert_refused(
            &rt,
            rt.alloc(),
            case,
            words,
            &[("f", b"")],
            (*status, *text),
        )?;
    }
    for (case, parts, text) in &REFUSED_FILMS {
        let film = joined(rt.alloc(), parts)?;
        assert_refused(
            &rt,
            rt.alloc(),
            case,
            &["info", "f"],
            &[("f", &film)],
            (Status::Film, *text),
        )?;
    }
    Ok(())
}

/// 65,536 bytes of headers and lacing values alone, each of which says that a page of all the bytes
/// that a page can have stands there.
#[test]
fn false_headers_again_and_again(rt: HostRuntime) -> Result<(), Fail> {
    let mut film = Vec::new(rt.alloc());
    for _ in 0..233u32 {
        film.extend_from_slice(&films::FALSE_HEADER)?;
    }
    film.truncate(65_536);
    let refused = (Status::Film, "film no link");
    assert_refused(
        &rt,
        rt.alloc(),
        "false headers",
        &["info", "f"],
        &[("f", &film)],
        refused,
    )
}

#[test]
fn faults_of_the_outside(rt: HostRuntime) -> Result<(), Fail> {
    let film = joined(rt.alloc(), &films::BASE)?;
    let words = ["info", "f"];
    let failing = Failing {
        shelf: &[1],
        ..NOTHING_FAILS
    };
    let unread = run_words(rt.alloc(), &words, &[("f", &film)], failing)?;
    let line = b"cannot read f\n";
    assert_ends(&rt, "a failed fetch", &unread, Status::Input, b"", line);
    let failing = Failing {
        shelf: &[2],
        out: &[2],
        notes: &[1],
    };
    let later = run_words(rt.alloc(), &words, &[("f", &film)], failing)?;
    assert_eq!(rt; later.status, Status::Ok);
    let failing = Failing {
        out: &[1],
        ..NOTHING_FAILS
    };
    let unwritten = run_words(rt.alloc(), &words, &[("f", &film)], failing)?;
    assert_ends(&rt, "a failed put", &unwritten, Status::Output, b"", b"");
    Ok(())
}

/// A shelf that tells nothing, and answers each fetch with one fault.
#[derive(Drop)]
struct FaultyShelf {
    fault: FetchFault,
    faults: u64,
}

impl Shelf for FaultyShelf {
    ghost use Rattle.std.specs.Prelude.{None};

    ghost told = { λ _ _. None };

    ghost faults = { λ s _. s.faults };

    fn fetch(&mut self, _: Global, _: &str, _: u64) -> Result<Vec<u8>, FetchFault> {
        self.faults = self.faults.saturating_add(1);
        Err(self.fault)
    }
}

/// A sink that tells nothing, and finds memory for the line `memory` alone. It keeps how many puts
/// it answered, and whether the last one was done.
#[derive(Drop)]
struct NarrowSink {
    puts: u32,
    noted: bool,
}

impl Sink for NarrowSink {
    ghost use Rattle.std.specs.Prelude.{None};

    ghost written = { λ _. None };

    ghost faults = { λ _. 0 };

    fn put(&mut self, bytes: &[u8]) -> Result<(), PutFault> {
        self.puts = self.puts.saturating_add(1);
        self.noted = bytes == b"memory\n".as_slice();
        if self.noted {
            Ok(())
        } else {
            Err(PutFault::Memory)
        }
    }
}

#[test]
fn a_film_that_is_too_long_and_want_of_memory(rt: HostRuntime) -> Result<(), Fail> {
    let alloc = rt.alloc();
    let words = words_of(alloc, &["info", "f"])?;
    let rows = [
        (
            FetchFault::TooLong,
            Status::TooLong,
            "too long f 268435456\n",
        ),
        (FetchFault::Failed, Status::Input, "cannot read f\n"),
        (FetchFault::Memory, Status::Memory, "memory\n"),
    ];
    for (fault, want, line) in &rows {
        let mut shelf = FaultyShelf {
            fault: *fault,
            faults: 0,
        };
        let mut out = MemSink::new(alloc, Vec::new(alloc));
        let mut notes = MemSink::new(alloc, Vec::new(alloc));
        let status = player(alloc, &words, &mut shelf, &mut out, &mut notes, &OpenGate);
        assert_ends(
            &rt,
            line,
            &Run { status, out, notes },
            *want,
            b"",
            line.as_bytes(),
        );
    }
    Ok(())
}

#[test]
fn a_refusal_whose_line_finds_no_memory(rt: HostRuntime) -> Result<(), Fail> {
    let alloc = rt.alloc();
    for case in &[["info", "g"], ["inf", "f"]] {
        let words = words_of(alloc, case)?;
        let mut shelf = MemShelf::new(alloc, Vec::new(alloc), Vec::new(alloc));
        let mut out = CleanSink::new(alloc);
        let mut notes = NarrowSink {
            puts: 0,
            noted: false,
        };
        let status = player_alone(alloc, &words, &mut shelf, &mut out, &mut notes);
        assert_eq!(rt; status, Some(Status::Memory), "{case:?}");
        assert_eq!(rt; notes.puts, 2, "{case:?}");
        assert!(rt; notes.noted, "{case:?}");
        assert_eq!(rt; out.written(), b"".as_slice(), "{case:?}");
    }
    Ok(())
}

#[test]
fn nothing_fails_over_a_clean_shelf(rt: HostRuntime) -> Result<(), Fail> {
    let alloc = rt.alloc();
    let words = words_of(alloc, &["info", "f"])?;
    let film = joined(alloc, &films::BASE)?;
    let mut shelf = CleanShelf::new(files_of(alloc, &[("f", &film)])?);
    let mut out = CleanSink::new(alloc);
    let mut notes = CleanSink::new(alloc);
    let status = player_alone(alloc, &words, &mut shelf, &mut out, &mut notes);
    let lines = lines_of(alloc, "pages 3 packets 5 lost 0", 32, 0)?;
    assert_eq!(rt; status, Some(Status::Ok));
    assert_eq!(rt; out.written(), lines.as_bytes());
    assert_eq!(rt; notes.written(), b"".as_slice());
    Ok(())
}
