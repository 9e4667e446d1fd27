use super::*;
use std::alloc::{AllocError, Global};
use std::process::Abort;
use std::test::Fail;

/// The name `a` twice and the name `b` without bytes.
fn named_bytes(alloc: Global) -> Result<Vec<(String, Vec<u8>)>, AllocError> {
    let mut files = Vec::new(alloc);
    for (name, bytes) in [("a", "first"), ("b", ""), ("a", "second")] {
        let name = String::from_str(alloc, name)?;
        files.push((name, bytes.as_bytes().to_vec(alloc)?))?;
    }
    Ok(files)
}

/// One fetch: its name, its limit, and the text that it must give or its fault.
type Row = (&'static str, u64, Result<&'static str, FetchFault>);

fn expect_rows<S: Shelf>(rt: &impl Abort, alloc: Global, shelf: &mut S, rows: &[Row]) {
    for (name, limit, want) in rows {
        let got = shelf.fetch(alloc, name, *limit);
        match (&got, want) {
            (Ok(bytes), Ok(text)) => {
                assert_eq!(rt; bytes.as_slice(), text.as_bytes(), "{name} within {limit}")
            }
            (Err(fault), Err(expected)) => {
                assert_eq!(rt; *fault, *expected, "{name} within {limit}")
            }
            _ => assert!(rt; false, "{name} within {limit}: {got:?}"),
        }
    }
}

#[test]
fn a_shelf_in_memory_gives_and_fails(rt: HostRuntime) -> Result<(), Fail> {
    let alloc = rt.alloc();
    let failing = vec![in alloc; 3, 6, 0]?;
    let mut shelf = MemShelf::new(alloc, named_bytes(alloc)?, failing);
    let rows = [
        ("a", 5, Ok("first")),
        ("a", 4, Err(FetchFault::TooLong)),
        ("a", 5, Err(FetchFault::Failed)),
        ("b", 0, Ok("")),
        ("c", 9, Err(FetchFault::Failed)),
        ("a", 4, Err(FetchFault::Failed)),
        ("a", u64::MAX, Ok("first")),
        ("", 9, Err(FetchFault::Failed)),
    ];
    expect_rows(&rt, alloc, &mut shelf, &rows);
    Ok(())
}

#[test]
fn a_clean_shelf_holds_every_name(rt: HostRuntime) -> Result<(), Fail> {
    let alloc = rt.alloc();
    let mut shelf = CleanShelf::new(named_bytes(alloc)?);
    let rows = [
        ("a", 5, Ok("first")),
        ("a", 4, Err(FetchFault::TooLong)),
        ("b", 0, Ok("")),
        ("c", 0, Ok("")),
    ];
    expect_rows(&rt, alloc, &mut shelf, &rows);
    Ok(())
}

#[test]
fn sinks_in_memory_keep_what_was_put(rt: HostRuntime) -> Result<(), Fail> {
    let alloc = rt.alloc();
    let mut sink = MemSink::new(alloc, vec![in alloc; 2, 4, 0]?);
    let answers = [Ok(()), Err(PutFault::Failed), Ok(()), Err(PutFault::Failed)];
    for (answer, piece) in answers.iter().zip(["ab", "c", "d", "ef"]) {
        assert_eq!(rt; sink.put(piece.as_bytes()), *answer, "{piece}");
    }
    assert_eq!(rt; sink.written(), b"abd".as_slice());

    let mut clean = CleanSink::new(alloc);
    clean.put(b"ab")?;
    clean.put(b"c")?;
    assert_eq!(rt; clean.written(), b"abc".as_slice());
    Ok(())
}

#[test]
fn the_texts_of_faults(rt: HostRuntime) -> Result<(), Fail> {
    let fetches = [
        (FetchFault::Failed, "the file cannot be read"),
        (FetchFault::TooLong, "the file is too long"),
        (FetchFault::Memory, "out of memory"),
    ];
    for (fault, text) in fetches {
        let shown = format!(in rt.alloc(); "{fault}")?;
        assert_eq!(rt; shown.as_str(), text, "{fault:?}");
    }
    let puts = [
        (PutFault::Failed, "the output cannot be written"),
        (PutFault::Memory, "out of memory"),
    ];
    for (fault, text) in puts {
        let shown = format!(in rt.alloc(); "{fault}")?;
        assert_eq!(rt; shown.as_str(), text, "{fault:?}");
    }
    Ok(())
}

#[test]
fn an_open_gate_lets_each_point_pass(_rt: HostRuntime) {
    OpenGate.reach(Point {
        hand: 0,
        helper: false,
        pushed: 0,
        published: 0,
    });
}
