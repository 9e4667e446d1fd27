//! `ogg_pages`: bytes with pages among them, and checksums.

use ogg_pages::{PageRef, checksum, next_page, scan};
use std::alloc::{AllocError, Global};
use std::test::Fail;

/// Two pages between other bytes: one with the first-page flag and one byte, one with the last-page
/// flag, a granule position and two segments.
const PAGES_BETWEEN: [u8; 64] = [
    0x4f, 0x67, 0x4f, 0x67, 0x67, 0x53, 0x00, 0x02, 0x00, 0x00, 0x00, 0x00, 0x00, 0x00, 0x00, 0x00,
    0x01, 0x00, 0x00, 0x00, 0x07, 0x00, 0x00, 0x00, 0x4f, 0x34, 0x8c, 0x43, 0x01, 0x01, 0x61, 0x67,
    0x53, 0x4f, 0x67, 0x67, 0x53, 0x00, 0x04, 0x05, 0x00, 0x00, 0x00, 0x00, 0x00, 0x00, 0x00, 0x01,
    0x00, 0x00, 0x00, 0x08, 0x00, 0x00, 0x00, 0xb0, 0x4a, 0x51, 0x47, 0x02, 0x01, 0x00, 0x62, 0x4f,
];

#[test]
fn finds_the_pages_between_other_bytes(rt: HostRuntime) -> Result<(), Fail> {
    let first = PageRef {
        place: 2,
        flags: 2,
        granule: Some(0),
        serial: 1,
        sequence: 7,
        segments: 1,
        body: 1,
    };
    let last = PageRef {
        place: 33,
        flags: 4,
        granule: Some(5),
        serial: 1,
        sequence: 8,
        segments: 2,
        body: 1,
    };
    let found = scan(rt.alloc(), &PAGES_BETWEEN)?;
    assert_eq!(rt; found.as_slice(), [first, last].as_slice());
    Ok(())
}

/// From a place, where the next page stands: from a page's own place it is that page, and behind
/// the last page, or the end, there is none.
#[test]
fn finds_the_next_page(rt: HostRuntime) {
    let rows = [
        (0u64, Some(2u64)),
        (2, Some(2)),
        (3, Some(33)),
        (33, Some(33)),
        (34, None),
        (64, None),
        (65, None),
        (u64::MAX, None),
    ];
    for (from, place) in &rows {
        let found = next_page(&PAGES_BETWEEN, *from).map(|page| page.place);
        assert_eq!(rt; found, *place, "from {from}");
    }
}

/// The check value of this checksum: polynomial 0x04c11db7, no reflection, from 0, over the digits
/// 1 to 9.
#[test]
fn has_the_published_check_value(rt: HostRuntime) {
    assert_eq!(rt; checksum(b"123456789"), 0x89a1_897f);
}

/// The checksum as it is defined, a bit at a time.
fn checksum_bit_by_bit(bytes: &[u8]) -> u32 {
    let mut sum = 0u32;
    for (offset, byte) in bytes.iter().enumerate() {
        let counted = if (22..26).contains(&offset) { 0 } else { *byte };
        sum ^= u32::from(counted) << 24;
        for _ in 0..8u32 {
            let doubled = sum << 1;
            sum = if sum < 0x8000_0000 {
                doubled
            } else {
                doubled ^ 0x04c1_1db7
            };
        }
    }
    sum
}

/// So many bytes that look like none in particular.
fn sample(alloc: Global, len: u32) -> Result<Vec<u8>, AllocError> {
    let mut bytes = Vec::new(alloc);
    let mut byte = 7u8;
    for _ in 0..len {
        bytes.push(byte)?;
        byte = byte.wrapping_mul(181).wrapping_add(59);
    }
    Ok(bytes)
}

/// Lengths round the bytes of the checksum itself, round steps of four and sixteen behind them, and
/// a long one.
#[test]
fn sums_by_tables_as_bit_by_bit(rt: HostRuntime) -> Result<(), Fail> {
    for len in [0u32, 1, 9, 22, 23, 25, 26, 27, 29, 30, 41, 42, 43, 58, 300] {
        let bytes = sample(rt.alloc(), len)?;
        assert_eq!(rt;
            checksum(&bytes),
            checksum_bit_by_bit(&bytes),
            "{len} bytes"
        );
    }
    Ok(())
}
