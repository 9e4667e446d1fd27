//! `bit_reader`: the bytes of packets, and the numbers that their bits give.

use bit_reader::Bits;

/// A field: how many bits are taken, what they give, and how many bits are taken then.
type Field = (u32, Option<u32>, u64);

/// What a row shows, the bytes of a packet, and fields that are taken from it.
const FIELDS: [(&str, &[u8], &[Field]); 5] = [
    (
        "the lowest bit of a byte comes first",
        b"\x06",
        &[
            (1, Some(0), 1),
            (1, Some(1), 2),
            (2, Some(1), 4),
            (4, Some(0), 8),
        ],
    ),
    (
        "the end uses up the bits that are left, and stays",
        b"\x06",
        &[(3, Some(6), 3), (6, None, 8), (1, None, 8), (0, Some(0), 8)],
    ),
    ("no byte", b"", &[(0, Some(0), 0), (1, None, 0)]),
    (
        "the standard's example (Vorbis I, section 2.1.5)",
        b"\xfc\x48\xce\x06",
        &[
            (4, Some(12), 4),
            (3, Some(7), 7),
            (7, Some(17), 14),
            (13, Some(6969), 27),
            (5, Some(0), 32),
        ],
    ),
    (
        "a field that lies in five bytes, and one near the end of many",
        b"\x80\x01\x02\x03\x84\x05\x06\x07\x08\x09\x0a",
        &[
            (7, Some(0), 7),
            (32, Some(0x0806_0403), 39),
            (32, Some(0x100e_0c0b), 71),
            (16, Some(0x1412), 87),
            (1, Some(0), 88),
        ],
    ),
];

#[test]
fn takes_fields(rt: HostRuntime) {
    for (name, bytes, fields) in &FIELDS {
        assert!(rt; bytes.len() < 100);
        let mut bits = Bits::new(bytes);
        for (count, wanted, at) in *fields {
            assert!(rt; *count <= 32);
            assert_eq!(rt; bits.take(*count), *wanted, "{name}");
            assert_eq!(rt; bits.at(), *at, "{name}");
        }
    }
}

/// What a row shows, the bytes of a packet, how many bits are taken, how many are looked at, and
/// what they give.
const LOOKS: [(&str, &[u8], u32, u32, u32); 7] = [
    ("bits behind others", b"\xfc\x48\xce\x06", 4, 7, 15),
    ("bits of two bytes", b"\xfc\x48\xce\x06", 7, 7, 17),
    ("zeros behind the last bit", b"\xff\xff", 5, 32, 2047),
    ("zeros behind the last bits of one byte", b"\xa5", 2, 8, 41),
    ("no bit", b"\xff", 0, 0, 0),
    ("behind the last bit", b"\xff", 8, 8, 0),
    ("no byte", b"", 0, 32, 0),
];

#[test]
fn looks(rt: HostRuntime) {
    for (name, bytes, taken, count, wanted) in &LOOKS {
        assert!(rt; bytes.len() < 100 && *taken <= 32 && *count <= 32);
        let mut bits = Bits::new(bytes);
        assert!(rt; bits.take(*taken).is_some(), "{name}");
        assert_eq!(rt; bits.look(*count), *wanted, "{name}");
        assert_eq!(rt; bits.at(), u64::from(*taken), "{name}");
    }
    let mut bits = Bits::new(b"\xff");
    bits.finish();
    assert_eq!(rt; bits.look(32), 0);
}

#[test]
fn finishes(rt: HostRuntime) {
    let mut bits = Bits::new(b"\xff\xff");
    assert_eq!(&rt; bits.take(5), Some(31));
    bits.finish();
    assert_eq!(&rt; bits.take(1), None);
    assert_eq!(&rt; bits.take(0), Some(0));
    assert_eq!(&rt; bits.at(), 16);
}
