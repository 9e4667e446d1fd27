//! `ogg_pages`: pages that are written, and found again.

ghost use Rattle.std.specs.Prelude.{◌≡◌, ◌≤◌, ◌<◌, ◌^◌, length, sum, IfSome};

use ogg_pages::{PageOut, PageRef, body, laces, page_bytes, scan};
use std::alloc::Global;
use std::process::Abort;
use std::test::Fail;

/// A page of one packet of three bytes.
const SHORT: PageOut<'static> = PageOut {
    flags: 0,
    granule: None,
    serial: 7,
    sequence: 9,
    laces: &[3],
    body: b"abc",
};

/// Writes a page, with other bytes behind it, and finds it again, whole and alone.
fn finds_again(rt: &impl Abort, alloc: Global, name: &str, page: &PageOut) -> Result<(), Fail>
    requires laces { length page.now.laces.now ≤ 255 }
    requires body { sum page.now.laces.now ≡ length page.now.body.now }
    requires granule { IfSome page.now.granule (λ granule. granule < 2 ^ 63) }
{
    let mut bytes = page_bytes(alloc, page)?;
    bytes.extend_from_slice(b"OggS")?;
    assert!(rt; bytes.len() < 1 << 17, "{name}: too long");
    assert!(rt; page.body.len() < 1 << 16, "{name}: too long a body");
    let found = scan(alloc, &bytes)?;
    let expected = PageRef {
        place: 0,
        flags: page.flags,
        granule: page.granule,
        serial: page.serial,
        sequence: page.sequence,
        segments: page.laces.len() as u8,
        body: page.body.len() as u32,
    };
    assert_eq!(rt; found.as_slice(), [expected].as_slice(), "{name}");
    for found in &found {
        assert_eq!(rt; laces(&bytes, found), page.laces, "{name}");
        assert_eq!(rt; body(&bytes, found), page.body, "{name}");
    }
    Ok(())
}

#[test]
fn of_any_number_of_laces(rt: HostRuntime) -> Result<(), Fail> {
    let none = PageOut {
        laces: &[],
        body: b"",
        ..SHORT
    };
    let most = PageOut {
        laces: &[1; 255],
        body: &[7; 255],
        ..SHORT
    };
    finds_again(&rt, rt.alloc(), "no lace", &none)?;
    finds_again(&rt, rt.alloc(), "one lace", &SHORT)?;
    finds_again(&rt, rt.alloc(), "255 laces", &most)
}

#[test]
fn of_any_granule(rt: HostRuntime) -> Result<(), Fail> {
    let first = PageOut {
        granule: Some(0),
        ..SHORT
    };
    let last = PageOut {
        granule: Some(i64::MAX as u64),
        ..SHORT
    };
    finds_again(&rt, rt.alloc(), "no granule position", &SHORT)?;
    finds_again(&rt, rt.alloc(), "granule position 0", &first)?;
    finds_again(&rt, rt.alloc(), "granule position 2^63 - 1", &last)
}

#[test]
fn of_each_flag(rt: HostRuntime) -> Result<(), Fail> {
    let rows = [
        ("goes on with a packet", 1u8),
        ("the first of its stream", 2),
        ("the last of its stream", 4),
        ("all flags", 7),
    ];
    for (name, flags) in &rows {
        let page = PageOut {
            flags: *flags,
            ..SHORT
        };
        finds_again(&rt, rt.alloc(), name, &page)?;
    }
    Ok(())
}
