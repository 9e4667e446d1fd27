//! `chain_links`: films by their pages, and their links.

use chain_links::{LinkFault, LinkPages, MOST_LINKS, links};
use ogg_pages::scan;
use std::alloc::{AllocError, Global};
use std::test::Fail;

/// A first page of serial number 7 that begins a Vorbis stream.
const VORBIS_7: [u8; 35] = [
    0x4f, 0x67, 0x67, 0x53, 0x00, 0x02, 0x00, 0x00, 0x00, 0x00, 0x00, 0x00, 0x00, 0x00, 0x07, 0x00,
    0x00, 0x00, 0x00, 0x00, 0x00, 0x00, 0x24, 0xf4, 0xf4, 0xfe, 0x01, 0x07, 0x01, 0x76, 0x6f, 0x72,
    0x62, 0x69, 0x73,
];

/// A last page of serial number 7.
const END_7: [u8; 29] = [
    0x4f, 0x67, 0x67, 0x53, 0x00, 0x04, 0x00, 0x00, 0x00, 0x00, 0x00, 0x00, 0x00, 0x00, 0x07, 0x00,
    0x00, 0x00, 0x01, 0x00, 0x00, 0x00, 0x33, 0x18, 0xca, 0xe1, 0x01, 0x01, 0x09,
];

/// A first page of serial number 8 that begins a Vorbis stream.
const VORBIS_8: [u8; 35] = [
    0x4f, 0x67, 0x67, 0x53, 0x00, 0x02, 0x00, 0x00, 0x00, 0x00, 0x00, 0x00, 0x00, 0x00, 0x08, 0x00,
    0x00, 0x00, 0x00, 0x00, 0x00, 0x00, 0x7c, 0x8a, 0x13, 0x98, 0x01, 0x07, 0x01, 0x76, 0x6f, 0x72,
    0x62, 0x69, 0x73,
];

/// A first page of serial number 5 that begins an Opus stream.
const OPUS_5: [u8; 36] = [
    0x4f, 0x67, 0x67, 0x53, 0x00, 0x02, 0x00, 0x00, 0x00, 0x00, 0x00, 0x00, 0x00, 0x00, 0x05, 0x00,
    0x00, 0x00, 0x00, 0x00, 0x00, 0x00, 0x44, 0xee, 0x7e, 0x52, 0x01, 0x08, 0x4f, 0x70, 0x75, 0x73,
    0x48, 0x65, 0x61, 0x64,
];

/// A first page of serial number 6, on which the second packet begins so.
const SECOND_6: [u8; 37] = [
    0x4f, 0x67, 0x67, 0x53, 0x00, 0x02, 0x00, 0x00, 0x00, 0x00, 0x00, 0x00, 0x00, 0x00, 0x06, 0x00,
    0x00, 0x00, 0x00, 0x00, 0x00, 0x00, 0x80, 0x3f, 0x08, 0xa5, 0x02, 0x01, 0x07, 0x09, 0x01, 0x76,
    0x6f, 0x72, 0x62, 0x69, 0x73,
];

/// The bytes of these pages, one letter a page, so many times.
fn film_of(alloc: Global, pages: &[u8], times: u32) -> Result<Vec<u8>, AllocError> {
    let mut film = Vec::new(alloc);
    for _ in 0..times {
        for page in pages {
            match page {
                b'v' => film.extend_from_slice(&VORBIS_7)?,
                b'w' => film.extend_from_slice(&VORBIS_8)?,
                b'o' => film.extend_from_slice(&OPUS_5)?,
                b's' => film.extend_from_slice(&SECOND_6)?,
                _ => film.extend_from_slice(&END_7)?,
            }
        }
    }
    Ok(film)
}

/// The links of a film, or the fault.
#[tactic(auto, using(model_ogg::proofs::PageCount::pages_within))]
fn links_of(alloc: Global, film: &[u8]) -> Result<Vec<LinkPages>, LinkFault> {
    if film.len() > u32::MAX as usize {
        return Err(LinkFault::Memory);
    }
    let Ok(pages) = scan(alloc, film) else {
        return Err(LinkFault::Memory);
    };
    links(alloc, film, &pages)
}

/// What is answered: the last two of the links, the last first, or the fault.
fn text_of(
    alloc: Global,
    answer: &Result<Vec<LinkPages>, LinkFault>,
) -> Result<String, AllocError> {
    let links = match answer {
        Ok(links) => links.as_slice(),
        Err(fault) => return format!(in alloc; "{fault}"),
    };
    let mut text = String::new(alloc);
    for link in links.iter().rev().take(2) {
        let one = format!(in alloc; "{} to {} of {};", link.first, link.end, link.serial)?;
        text.push_str(&one)?;
    }
    Ok(text)
}

/// Films by what they show: their pages, one letter a page, how often these are repeated, and what
/// is answered.
const FILMS: [(&str, &[u8], u32, &str); 11] = [
    ("no page", b"", 1, "no link"),
    ("no first page", b"ee", 1, "no link"),
    ("one link", b"ve", 1, "0 to 2 of 7;"),
    ("two links", b"vew", 1, "2 to 3 of 8;0 to 2 of 7;"),
    ("pages before the first link", b"eewe", 1, "2 to 4 of 8;"),
    (
        "three first pages in a row",
        b"owvev",
        1,
        "4 to 5 of 7;0 to 4 of 8;",
    ),
    ("no Vorbis stream", b"o", 1, "link 0 no vorbis"),
    (
        "no Vorbis stream in the second link",
        b"veoeo",
        1,
        "link 1 no vorbis",
    ),
    (
        "a second packet that begins so",
        b"se",
        1,
        "link 0 no vorbis",
    ),
    (
        "the most links",
        b"ve",
        MOST_LINKS,
        "8190 to 8192 of 7;8188 to 8190 of 7;",
    ),
    ("a link more", b"ve", MOST_LINKS + 1, "too many links"),
];

#[test]
fn finds_links(rt: HostRuntime) -> Result<(), Fail> {
    for (case, pages, times, expected) in &FILMS {
        let film = film_of(rt.alloc(), pages, *times)?;
        let answer = links_of(rt.alloc(), &film);
        let found = text_of(rt.alloc(), &answer)?;
        assert_eq!(rt; found.as_str(), *expected, "{case}");
    }
    Ok(())
}

#[test]
fn says_that_memory_ran_out(rt: HostRuntime) -> Result<(), Fail> {
    let text = text_of(rt.alloc(), &Err(LinkFault::Memory))?;
    assert_eq!(rt; text.as_str(), "out of memory");
    Ok(())
}
