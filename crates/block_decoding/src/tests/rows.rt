//! Printed by `tools/blocks.py`, and laid out by `rt fmt`: packets, and values of their blocks.

use super::Row;

/// The setup of the smallest film: a floor of two points, a residue of one bin.
const SMALLEST: &[u8] =
    b"\x05vorbis\x00BCV\x01\x00\x01\x00\x00\x80\x08\x00\x00\x12\x03\x00\x00\x00\x00\
                    \x00\x00\x00 \x00\x00P@\x00\x00\x00\x00@\x00\x00\x00\x00\x00\x00\x00\x10\x00\
                    \x00\x00\x00\x00\x00\x00\x00\x00\x00\x00\x00\x00\x02";

/// A setup of three mappings: one submap, a coupling step, and two submaps. Short and long blocks
/// of the first, and short ones of the others.
const PARTS: &[u8] =
    b"\x05vorbis\x02BCV\x01\x00\x02\x00\x00\x00\x00BCV\x01\x00\x04\x00\x00\x84\x10B\
                    \x0c\x00\x00\x8a\x07\x00\x00\x8a\x0d\x08:\xa1!\xab\x00\x00\x02\x00\x00B\x08!\
                    \x12\x00\x00\xc5\x03\x00\x00\xc5\x06\x14?\x00\x00\x10\x04\x00\x04\x10\x02X\xe2Q\
                    \x01\x00\x80\x0b\x02\x00\x00\x00\x000\x00\x00\x06\x00\x00\x02\x80\x88\x00\x01\
                    \x00\x00\x00\x00\x00\x0c\x00\x80\x01\x00\x80\x00 B @\x00\x00\x00\x00\x00\x00\
                    \x00\x00\x01\x04\x00\x00\x00\x00` \x00\x00\x00\x00  `\x00\x00\x00\x00\x00\x10\
                    \x00\x00\x00\x00\x00\x00\x00\x00@\x00\x00\x00\x00\x00\x81";

/// A setup whose first channel stands in two coupling steps.
const TWO_STEPS: &[u8] =
    b"\x05vorbis\x02BCV\x01\x00\x02\x00\x00\x00\x00BCV\x01\x00\x04\x00\x00\x84\x10B\
                    \x0c\x00\x00\x8a\x07\x00\x00\x8a\x0d\x08:\xa1!\xab\x00\x00\x02\x00\x00B\x08!\
                    \x12\x00\x00\xc5\x03\x00\x00\xc5\x06\x14?\x00\x00\x10\x04\x00\x04\x10\x02X\xe2Q\
                    \x01\x00\x80\x0b\x02\x00\x00\x00\x000\x00\x00\x06\x00\x00\x02\x80\x88\x00\x01\
                    \x00\x00\x00\x00\x00\x0c\x00\x80\x01\x00\x80\x00 B \x00\x00\x000\x80\x10\x00\
                    \x00\x00\x00\x00\x00\x00\x00@";

pub const ROWS: [Row; 14] = [
    Row {
        name: "a sound",
        setup: SMALLEST,
        channels: 1,
        packet: b"\x02\x00\x00",
        slope: 8388608,
        step: 0,
        values: [
            (0, 0, 262144),
            (0, 15, 262144),
            (0, 16, -262144),
            (0, 31, -262144),
            (0, 33, -262144),
            (0, 63, -262144),
        ],
    },
    Row {
        name: "a sound under half a slope",
        setup: SMALLEST,
        channels: 1,
        packet: b"\x02\x00\x00",
        slope: 4194304,
        step: 0,
        values: [
            (0, 0, 131072),
            (0, 15, 131072),
            (0, 16, -131072),
            (0, 31, -131072),
            (0, 33, -131072),
            (0, 63, -131072),
        ],
    },
    Row {
        name: "a floor that is not used",
        setup: SMALLEST,
        channels: 1,
        packet: b"\x00",
        slope: 8388608,
        step: 0,
        values: [
            (0, 0, 0),
            (0, 15, 0),
            (0, 16, 0),
            (0, 31, 0),
            (0, 33, 0),
            (0, 63, 0),
        ],
    },
    Row {
        name: "a packet that ends in its floor",
        setup: SMALLEST,
        channels: 1,
        packet: b"\x02\x00",
        slope: 8388608,
        step: 0,
        values: [
            (0, 0, 0),
            (0, 15, 0),
            (0, 16, 0),
            (0, 31, 0),
            (0, 33, 0),
            (0, 63, 0),
        ],
    },
    Row {
        name: "eight channels, every other silent",
        setup: SMALLEST,
        channels: 8,
        packet: b"\x04\x00\x10\x00@\x00\x00\x01\x00\x00\x00\x00",
        slope: 8388608,
        step: 0,
        values: [
            (7, 0, 262144),
            (6, 15, 0),
            (5, 16, -262144),
            (4, 31, 0),
            (3, 33, -262144),
            (2, 63, 0),
        ],
    },
    Row {
        name: "a long block between short blocks",
        setup: PARTS,
        channels: 2,
        packet: b"\xa2\xe0-W\x03\x0a\x17\x16\x01\x86M\xeb\x9bv\xc1\xb7l\xc7\xc8cd\x06",
        slope: 8388608,
        step: 1000,
        values: [
            (1, 47, 0),
            (0, 55, -8424196),
            (1, 64, 12864),
            (0, 128, 9641783),
            (1, 207, 9053943),
            (0, 208, 0),
        ],
    },
    Row {
        name: "a long block behind a short one",
        setup: PARTS,
        channels: 2,
        packet: b"\xb2\xe0-W\x03\x0a\x17\x16\x01\x86M\xeb\x9bv\xc1\xb7l\xc7\xc8cd\x06",
        slope: 8388608,
        step: 1000,
        values: [
            (1, 47, 0),
            (0, 55, -8424196),
            (1, 64, 12864),
            (0, 128, 9385469),
            (1, 207, 8898521),
            (0, 208, 8297935),
        ],
    },
    Row {
        name: "a long block before a short one",
        setup: PARTS,
        channels: 2,
        packet: b"\xaa\xe0-W\x03\x0a\x17\x16\x01\x86M\xeb\x9bv\xc1\xb7l\xc7\xc8cd\x06",
        slope: 8388608,
        step: 1000,
        values: [
            (1, 47, 40951563),
            (0, 55, -8279464),
            (1, 64, 12643),
            (0, 128, 9641783),
            (1, 207, 9053943),
            (0, 208, 0),
        ],
    },
    Row {
        name: "a long block between long blocks",
        setup: PARTS,
        channels: 2,
        packet: b"\xba\xe0-W\x03\x0a\x17\x16\x01\x86M\xeb\x9bv\xc1\xb7l\xc7\xc8cd\x06",
        slope: 8388608,
        step: 1000,
        values: [
            (1, 47, 40951563),
            (0, 55, -8279464),
            (1, 64, 12643),
            (0, 128, 9385469),
            (1, 207, 8898521),
            (0, 208, 8297935),
        ],
    },
    Row {
        name: "a packet that ends in its residue",
        setup: PARTS,
        channels: 2,
        packet: b"\x88\x84\xde\x17\xad\xd7\xd3\x5c\x7f~",
        slope: 8388608,
        step: 1000,
        values: [
            (1, 0, 7720431),
            (0, 15, 3334930),
            (1, 16, -475550),
            (0, 31, -7081853),
            (1, 33, -9525240),
            (0, 63, -756493),
        ],
    },
    Row {
        name: "a coupled pair, the first floor not used",
        setup: PARTS,
        channels: 2,
        packet: b"\xd4VV\xef\xb8\x8e\x10\x94G\xaf\xde3\xaa\xf7}/\xa5e\x07",
        slope: 8388608,
        step: 1000,
        values: [
            (1, 0, 6891338),
            (0, 15, 0),
            (1, 16, -4229204),
            (0, 31, 0),
            (1, 33, -16393625),
            (0, 63, 0),
        ],
    },
    Row {
        name: "a coupled pair",
        setup: PARTS,
        channels: 2,
        packet: b"<\xcfC\x86d\x95\xc7\xf8\xad\xe7\x2260\x82\x92>\x959BO\x22\x01",
        slope: 8388608,
        step: 1000,
        values: [
            (1, 0, -22876909),
            (0, 15, 8223082),
            (1, 16, -10599420),
            (0, 31, 5494889),
            (1, 33, 9340510),
            (0, 63, 9944317),
        ],
    },
    Row {
        name: "two submaps, the second of the first channel",
        setup: PARTS,
        channels: 2,
        packet: b"^\x8b\x97R\xd5\xf7\x08p\x7fp\x95\xce\x1cp\x17\xac\x11\xc5<D\x00",
        slope: 8388608,
        step: 1000,
        values: [
            (1, 0, 8726245),
            (0, 15, -3590306),
            (1, 16, 4015515),
            (0, 31, 838272),
            (1, 33, 13324564),
            (0, 63, -11633411),
        ],
    },
    Row {
        name: "three channels of two steps, the floor of the second used",
        setup: TWO_STEPS,
        channels: 3,
        packet: b"lC\xd8\xcd\xd8\x91\x8a\xb9\xc4*\x0f85\xe4n\x19\xc1\xd3\x02",
        slope: 8388608,
        step: 1000,
        values: [
            (2, 0, 0),
            (1, 15, -31855),
            (0, 16, 0),
            (2, 31, 0),
            (1, 33, 3567667),
            (0, 63, 0),
        ],
    },
];
