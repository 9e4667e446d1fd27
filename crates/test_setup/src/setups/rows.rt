//! Printed by `tools/setups.py rows`, and laid out by `rt fmt`: setup packets and heads of audio
//! packets, and what they say.

use super::{Accepted, Contents, Headed, Refused};
use setup_header::{PacketHead, SetupCause};

pub const ACCEPTED: [Accepted; 9] = [
    Accepted {
        name: "the smallest setup",
        channels: 1,
        packet: b"\x05vorbis\x00BCV\x01\x00\x01\x00\x00\x80\x08\x00\x00\x12\x03\x00\x00\x00\x00\
                    \x00\x00\x00 \x00\x00P@\x00\x00\x00\x00@\x00\x00\x00\x00\x00\x00\x00\x10\x00\
                    \x00\x00\x00\x00\x00\x00\x00\x00\x00\x00\x00\x00\x02",
        contents: Contents {
            books: 1,
            floors: 1,
            residues: 1,
            long_flags: &[false],
            couplings: 0,
            submaps: 1,
        },
    },
    Accepted {
        name: "more bytes behind it",
        channels: 1,
        packet: b"\x05vorbis\x00BCV\x01\x00\x01\x00\x00\x80\x08\x00\x00\x12\x03\x00\x00\x00\x00\
                    \x00\x00\x00 \x00\x00P@\x00\x00\x00\x00@\x00\x00\x00\x00\x00\x00\x00\x10\x00\
                    \x00\x00\x00\x00\x00\x00\x00\x00\x00\x00\x00\x00\x02\xff\x00",
        contents: Contents {
            books: 1,
            floors: 1,
            residues: 1,
            long_flags: &[false],
            couplings: 0,
            submaps: 1,
        },
    },
    Accepted {
        name: "a coupling step of two channels",
        channels: 2,
        packet: b"\x05vorbis\x00BCV\x01\x00\x01\x00\x00\x80\x08\x00\x00\x12\x03\x00\x00\x00\x00\
                    \x00\x00\x00 \x00\x00P@\x00\x00\x00\x00@\x00\x00\x00\x00\x00\x00\x00\x10\x00\
                    \x00\x00\x80\x00\x02\x00\x00\x00\x00\x00\x00\x00\x00\x08",
        contents: Contents {
            books: 1,
            floors: 1,
            residues: 1,
            long_flags: &[false],
            couplings: 1,
            submaps: 1,
        },
    },
    Accepted {
        name: "two submaps",
        channels: 2,
        packet: b"\x05vorbis\x00BCV\x01\x00\x01\x00\x00\x80\x08\x00\x00\x12\x03\x00\x00\x00\x00\
                    \x00\x00\x80 \x00\x00P\x01\x00\x80\x02\x02\x00\x00\x00\x00\x02\x00\x00\x00\x00\
                    \x00\x00\x80\x00\x00\x00\x00\x06\x02\x00\x00\x00\x00\x02\x00\x00\x00\x00\x00\
                    \x00\x00\x01",
        contents: Contents {
            books: 1,
            floors: 2,
            residues: 1,
            long_flags: &[false],
            couplings: 0,
            submaps: 2,
        },
    },
    Accepted {
        name: "six channels and three coupling steps",
        channels: 6,
        packet: b"\x05vorbis\x00BCV\x01\x00\x01\x00\x00\x80\x08\x00\x00\x12\x03\x00\x00\x00\x00\
                    \x00\x00\x00 \x00\x00P@\x00\x00\x00\x00@\x00\x00\x00\x00\x00\x00\x00\x10\x00\
                    \x00\x00\x80\x02\xd0\xd8\x00\x00\x00\x00\x00\x00\x00\x00\x00\x08",
        contents: Contents {
            books: 1,
            floors: 1,
            residues: 1,
            long_flags: &[false],
            couplings: 3,
            submaps: 1,
        },
    },
    Accepted {
        name: "a placeholder that is not 0",
        channels: 1,
        packet: b"\x05vorbis\x00BCV\x01\x00\x01\x00\x00\x80\x08\x00\x00\x12\x03\x00\x00\x00\x00\
                    \x00\x00\x00 \x00\x00P@\x00\x00\x00\x00@\x00\x00\x00\x00\x00\x00\x00\x10\x00\
                    \x00\x00\x00\xfc\x03\x00\x00\x00\x00\x00\x00\x00\x02",
        contents: Contents {
            books: 1,
            floors: 1,
            residues: 1,
            long_flags: &[false],
            couplings: 0,
            submaps: 1,
        },
    },
    Accepted {
        name: "two mappings, of two of three modes",
        channels: 1,
        packet: b"\x05vorbis\x00BCV\x01\x00\x01\x00\x00\x80\x08\x00\x00\x12\x03\x00\x00\x00\x00\
                    \x00\x00\x00 \x00\x00P@\x00\x00\x00\x00@\x00\x00\x00\x00\x00\x00\x00\x10\x00\
                    \x01\x00\x00\x00\x00\x00\x00\x00\x00\x00\x00\x80\x10\x00\x00\x00\x00\x00\x00\
                    \x00\x00@@\x00\x00\x00\x80\x80",
        contents: Contents {
            books: 1,
            floors: 1,
            residues: 1,
            long_flags: &[true, false, true],
            couplings: 0,
            submaps: 1,
        },
    },
    Accepted {
        name: "three time domain transforms",
        channels: 1,
        packet: b"\x05vorbis\x00BCV\x01\x00\x01\x00\x00\x80\x08\x00\x00\x12\x03\x00\x00\x00\x00\
                    \x04\x00\x00\x00\x00\x00\x00 \x00\x00P@\x00\x00\x00\x00@\x00\x00\x00\x00\x00\
                    \x00\x00\x10\x00\x00\x00\x00\x00\x00\x00\x00\x00\x00\x00\x00\x00\x02",
        contents: Contents {
            books: 1,
            floors: 1,
            residues: 1,
            long_flags: &[false],
            couplings: 0,
            submaps: 1,
        },
    },
    Accepted {
        name: "three residues of three types",
        channels: 1,
        packet: b"\x05vorbis\x00BCV\x01\x00\x01\x00\x00\x80\x08\x00\x00\x12\x03\x00\x00\x00\x00\
                    \x00\x00\x00 \x00\x00P\x02\x00\x00\x00\x00@\x00\x00\x00\x00\x00\x00\x00\x10\x00\
                    \x01\x00\x00\x00\x00\x01\x00\x00\x00\x00\x00\x00@\x00\x08\x00\x00\x00\x00\x04\
                    \x00\x00\x00\x00\x00\x00\x00\x01\x00\x00\x00\x00\x00\x00\x00\x00\x00\x00\x00\
                    \x00 ",
        contents: Contents {
            books: 1,
            floors: 1,
            residues: 3,
            long_flags: &[false],
            couplings: 0,
            submaps: 1,
        },
    },
];

pub const REFUSED: [Refused; 39] = [
    Refused {
        name: "the type of a comment packet",
        channels: 1,
        packet: b"\x03",
        cause: SetupCause::Kind,
        item: 0,
    },
    Refused {
        name: "another word for vorbis",
        channels: 1,
        packet: b"\x05vorbiS",
        cause: SetupCause::Kind,
        item: 0,
    },
    Refused {
        name: "no byte",
        channels: 1,
        packet: b"",
        cause: SetupCause::End,
        item: 0,
    },
    Refused {
        name: "an end within the word",
        channels: 1,
        packet: b"\x05vorbi",
        cause: SetupCause::End,
        item: 0,
    },
    Refused {
        name: "an end before the framing bit",
        channels: 1,
        packet: b"\x05vorbis\x00BCV\x01\x00\x01\x00\x00\x80\x08\x00\x00\x12\x03\x00\x00\x00\x00\
                    \x00\x00\x00 \x00\x00P@\x00\x00\x00\x00@\x00\x00\x00\x00\x00\x00\x00\x10\x00\
                    \x00\x00\x00\x00\x00\x00\x00\x00\x00\x00\x00\x00",
        cause: SetupCause::End,
        item: 0,
    },
    Refused {
        name: "an end within the second book",
        channels: 1,
        packet: b"\x05vorbis\x01BCV\x01\x00\x01\x00\x00\x80\x08\x00\x00\x12\x03\x00\x00\x00\x00\
                    \x84\x86\xac\x02\x00\x02\x00\x00\x00",
        cause: SetupCause::End,
        item: 0,
    },
    Refused {
        name: "a wrong sync pattern",
        channels: 1,
        packet: b"\x05vorbis\x00CCV",
        cause: SetupCause::BookSync,
        item: 0,
    },
    Refused {
        name: "a wrong sync pattern of the second book",
        channels: 1,
        packet: b"\x05vorbis\x01BCV\x01\x00\x01\x00\x00\x80\x08\x00\x00\x12\x03\x00\x00\x00\x00\
                    \x00\x00\x00\x00",
        cause: SetupCause::BookSync,
        item: 1,
    },
    Refused {
        name: "lengths that leave a gap",
        channels: 1,
        packet: b"\x05vorbis\x00BCV\x01\x00\x02\x00\x00\x80\x00",
        cause: SetupCause::BookTree,
        item: 0,
    },
    Refused {
        name: "lookup type 3",
        channels: 1,
        packet: b"\x05vorbis\x02BCV\x01\x00\x01\x00\x00\x80\x08\x00\x00\x12\x03\x00\x00\x00\x00\
                    \x84\x86\xac\x02\x00\x02\x00\x00\x00\x11\x00\x00$\x06\x00\x00\x00\x00\x08\x0dY\
                    \x05\x00\x04\x00\x00\x00\x06",
        cause: SetupCause::BookLookup,
        item: 2,
    },
    Refused {
        name: "a lookup without dimensions",
        channels: 1,
        packet: b"\x05vorbis\x00BCV\x00\x00\x01\x00\x00\x80\x00",
        cause: SetupCause::BookLookup,
        item: 0,
    },
    Refused {
        name: "a book of 2^24 - 1 entries",
        channels: 1,
        packet: b"\x05vorbis\x00BCV\x01\x00\xff\xff\xff",
        cause: SetupCause::BookLimit,
        item: 0,
    },
    Refused {
        name: "one entry more than all books may have",
        channels: 1,
        packet: b"\x05vorbis\x01BCV\x01\x00\x00\x00\x10'\x00\x00\x04\xa1!\xab\x00\x80\x00\x00\
                    \x00",
        cause: SetupCause::BookLimit,
        item: 1,
    },
    Refused {
        name: "more multiplicands than all books may have",
        channels: 1,
        packet: b"\x05vorbis\x00BCV\x01\x80 \x00\x00\x09(\x00\x00\x00\x00\x00\x00\x00\x00\x00",
        cause: SetupCause::BookLimit,
        item: 0,
    },
    Refused {
        name: "a second time domain transform that is not 0",
        channels: 1,
        packet: b"\x05vorbis\x00BCV\x01\x00\x01\x00\x00\x80\x08\x00\x00\x12\x03\x00\x00\x00\x00\
                    \x02\x00\x80\x00\x00",
        cause: SetupCause::Time,
        item: 1,
    },
    Refused {
        name: "a floor of type 0",
        channels: 1,
        packet: b"\x05vorbis\x00BCV\x01\x00\x01\x00\x00\x80\x08\x00\x00\x12\x03\x00\x00\x00\x00\
                    \x00\x00\x00\x00\x00\x00",
        cause: SetupCause::FloorZero,
        item: 0,
    },
    Refused {
        name: "a second floor of type 2",
        channels: 1,
        packet: b"\x05vorbis\x00BCV\x01\x00\x01\x00\x00\x80\x08\x00\x00\x12\x03\x00\x00\x00\x00\
                    \x00\x00\x80 \x00\x00P\x02\x00",
        cause: SetupCause::FloorKind,
        item: 1,
    },
    Refused {
        name: "a floor with a book that is not there",
        channels: 1,
        packet: b"\x05vorbis\x00BCV\x01\x00\x01\x00\x00\x80\x08\x00\x00\x12\x03\x00\x00\x00\x00\
                    \x00\x00\x80 \x00\x00P\x01\x00\x01\x80\x00",
        cause: SetupCause::FloorBook,
        item: 1,
    },
    Refused {
        name: "a floor with two points at bin 0",
        channels: 1,
        packet: b"\x05vorbis\x00BCV\x01\x00\x01\x00\x00\x80\x08\x00\x00\x12\x03\x00\x00\x00\x00\
                    \x00\x00\x00 \x00 \x00\x08\xa0\x00",
        cause: SetupCause::FloorList,
        item: 0,
    },
    Refused {
        name: "a second floor with 66 points",
        channels: 1,
        packet: b"\x05vorbis\x00BCV\x01\x00\x01\x00\x00\x80\x08\x00\x00\x12\x03\x00\x00\x00\x00\
                    \x00\x00\x80 \x00\x00P\x01\x00\x08\x00\x00\x00\xe0\x00P",
        cause: SetupCause::FloorList,
        item: 1,
    },
    Refused {
        name: "a residue of type 3",
        channels: 1,
        packet: b"\x05vorbis\x00BCV\x01\x00\x01\x00\x00\x80\x08\x00\x00\x12\x03\x00\x00\x00\x00\
                    \x00\x00\x00 \x00\x00P\xc0\x00\x00",
        cause: SetupCause::ResidueKind,
        item: 0,
    },
    Refused {
        name: "a class book that is not there",
        channels: 1,
        packet: b"\x05vorbis\x00BCV\x01\x00\x01\x00\x00\x80\x08\x00\x00\x12\x03\x00\x00\x00\x00\
                    \x00\x00\x00 \x00\x00PA\x00\x00\x00\x00@\x00\x00\x00\x00\x00\x00\x00\x10\x00\
                    \x01\x00\x00\x00\x00\x01\x00\x00\x00\x00\x00@\x00",
        cause: SetupCause::ResidueBook,
        item: 1,
    },
    Refused {
        name: "a value book that is not there",
        channels: 1,
        packet: b"\x05vorbis\x00BCV\x01\x00\x01\x00\x00\x80\x08\x00\x00\x12\x03\x00\x00\x00\x00\
                    \x00\x00\x00 \x00\x00P@\x00\x00\x00\x00@\x00\x00\x00\x00\x00\x00\x00\x10\x01",
        cause: SetupCause::ResidueBook,
        item: 0,
    },
    Refused {
        name: "a value book without a lookup",
        channels: 1,
        packet: b"\x05vorbis\x00BCV\x01\x00\x01\x00\x00\x00\x00\x00\x00\x80\x00\x00@\x01\x01\
                    \x00\x00\x00\x00\x01\x00\x00\x00\x00\x00\x00@\x00\x00",
        cause: SetupCause::ResidueBook,
        item: 0,
    },
    Refused {
        name: "a second mapping of type 1",
        channels: 1,
        packet: b"\x05vorbis\x00BCV\x01\x00\x01\x00\x00\x80\x08\x00\x00\x12\x03\x00\x00\x00\x00\
                    \x00\x00\x00 \x00\x00P@\x00\x00\x00\x00@\x00\x00\x00\x00\x00\x00\x00\x10\x00\
                    \x01\x00\x00\x00\x00\x00\x04\x00\x00",
        cause: SetupCause::MappingKind,
        item: 1,
    },
    Refused {
        name: "coupling in one channel",
        channels: 1,
        packet: b"\x05vorbis\x00BCV\x01\x00\x01\x00\x00\x80\x08\x00\x00\x12\x03\x00\x00\x00\x00\
                    \x00\x00\x00 \x00\x00P@\x00\x00\x00\x00@\x00\x00\x00\x00\x00\x00\x00\x10\x00\
                    \x00\x00\x80\x00",
        cause: SetupCause::MappingCoupling,
        item: 0,
    },
    Refused {
        name: "a channel coupled with itself",
        channels: 2,
        packet: b"\x05vorbis\x00BCV\x01\x00\x01\x00\x00\x80\x08\x00\x00\x12\x03\x00\x00\x00\x00\
                    \x00\x00\x00 \x00\x00P@\x00\x00\x00\x00@\x00\x00\x00\x00\x00\x00\x00\x10\x00\
                    \x00\x00\x80\x01\x0e",
        cause: SetupCause::MappingCoupling,
        item: 0,
    },
    Refused {
        name: "a magnitude channel that is not there",
        channels: 3,
        packet: b"\x05vorbis\x00BCV\x01\x00\x01\x00\x00\x80\x08\x00\x00\x12\x03\x00\x00\x00\x00\
                    \x00\x00\x00 \x00\x00P@\x00\x00\x00\x00@\x00\x00\x00\x00\x00\x00\x00\x10\x00\
                    \x00\x00\x80\x00\x03",
        cause: SetupCause::MappingCoupling,
        item: 0,
    },
    Refused {
        name: "an angle channel that is not there",
        channels: 3,
        packet: b"\x05vorbis\x00BCV\x01\x00\x01\x00\x00\x80\x08\x00\x00\x12\x03\x00\x00\x00\x00\
                    \x00\x00\x00 \x00\x00P@\x00\x00\x00\x00@\x00\x00\x00\x00\x00\x00\x00\x10\x00\
                    \x01\x00\x00\x00\x00\x00\x00\x00\x08\xe0",
        cause: SetupCause::MappingCoupling,
        item: 1,
    },
    Refused {
        name: "reserved bits that are not 0",
        channels: 1,
        packet: b"\x05vorbis\x00BCV\x01\x00\x01\x00\x00\x80\x08\x00\x00\x12\x03\x00\x00\x00\x00\
                    \x00\x00\x00 \x00\x00P@\x00\x00\x00\x00@\x00\x00\x00\x00\x00\x00\x00\x10\x00\
                    \x00\x00\x00\x02",
        cause: SetupCause::MappingReserved,
        item: 0,
    },
    Refused {
        name: "a submap that is not there",
        channels: 2,
        packet: b"\x05vorbis\x00BCV\x01\x00\x01\x00\x00\x80\x08\x00\x00\x12\x03\x00\x00\x00\x00\
                    \x00\x00\x00 \x00\x00P@\x00\x00\x00\x00@\x00\x00\x00\x00\x00\x00\x00\x10\x00\
                    \x00\x00\xc0\x00\x08",
        cause: SetupCause::MappingMux,
        item: 0,
    },
    Refused {
        name: "a floor that is not there",
        channels: 1,
        packet: b"\x05vorbis\x00BCV\x01\x00\x01\x00\x00\x80\x08\x00\x00\x12\x03\x00\x00\x00\x00\
                    \x00\x00\x00 \x00\x00P@\x00\x00\x00\x00@\x00\x00\x00\x00\x00\x00\x00\x10\x00\
                    \x00\x00\x00\x00\x04\x00",
        cause: SetupCause::MappingFloor,
        item: 0,
    },
    Refused {
        name: "a residue that is not there",
        channels: 1,
        packet: b"\x05vorbis\x00BCV\x01\x00\x01\x00\x00\x80\x08\x00\x00\x12\x03\x00\x00\x00\x00\
                    \x00\x00\x00 \x00\x00P@\x00\x00\x00\x00@\x00\x00\x00\x00\x00\x00\x00\x10\x00\
                    \x01\x00\x00\x00\x00\x00\x00\x00\x00\x00@\x00",
        cause: SetupCause::MappingResidue,
        item: 1,
    },
    Refused {
        name: "reserved bits before a wrong floor",
        channels: 1,
        packet: b"\x05vorbis\x00BCV\x01\x00\x01\x00\x00\x80\x08\x00\x00\x12\x03\x00\x00\x00\x00\
                    \x00\x00\x00 \x00\x00P@\x00\x00\x00\x00@\x00\x00\x00\x00\x00\x00\x00\x10\x00\
                    \x00\x00\x00\x01\x04\x00\x00",
        cause: SetupCause::MappingReserved,
        item: 0,
    },
    Refused {
        name: "window type 1",
        channels: 1,
        packet: b"\x05vorbis\x00BCV\x01\x00\x01\x00\x00\x80\x08\x00\x00\x12\x03\x00\x00\x00\x00\
                    \x00\x00\x00 \x00\x00P@\x00\x00\x00\x00@\x00\x00\x00\x00\x00\x00\x00\x10\x00\
                    \x00\x00\x00\x00\x00\x00\x00\x02\x00\x00",
        cause: SetupCause::ModeWindow,
        item: 0,
    },
    Refused {
        name: "a second mode of transform type 1",
        channels: 1,
        packet: b"\x05vorbis\x00BCV\x01\x00\x01\x00\x00\x80\x08\x00\x00\x12\x03\x00\x00\x00\x00\
                    \x00\x00\x00 \x00\x00P@\x00\x00\x00\x00@\x00\x00\x00\x00\x00\x00\x00\x10\x00\
                    \x00\x00\x00\x00\x00\x00\x04\x00\x00\x00\x00\x00\x00\x00\x04\x00\x00",
        cause: SetupCause::ModeTransform,
        item: 1,
    },
    Refused {
        name: "window type 1 before transform type 1",
        channels: 1,
        packet: b"\x05vorbis\x00BCV\x01\x00\x01\x00\x00\x80\x08\x00\x00\x12\x03\x00\x00\x00\x00\
                    \x00\x00\x00 \x00\x00P@\x00\x00\x00\x00@\x00\x00\x00\x00\x00\x00\x00\x10\x00\
                    \x00\x00\x00\x00\x00\x00\x00\x02\x00\x02\x00\x00\x00",
        cause: SetupCause::ModeWindow,
        item: 0,
    },
    Refused {
        name: "a mapping that is not there",
        channels: 1,
        packet: b"\x05vorbis\x00BCV\x01\x00\x01\x00\x00\x80\x08\x00\x00\x12\x03\x00\x00\x00\x00\
                    \x00\x00\x00 \x00\x00P@\x00\x00\x00\x00@\x00\x00\x00\x00\x00\x00\x00\x10\x00\
                    \x00\x00\x00\x00\x00\x00\x00\x00\x00\x00\x00\x02\x00",
        cause: SetupCause::ModeMapping,
        item: 0,
    },
    Refused {
        name: "a framing bit of 0",
        channels: 1,
        packet: b"\x05vorbis\x00BCV\x01\x00\x01\x00\x00\x80\x08\x00\x00\x12\x03\x00\x00\x00\x00\
                    \x00\x00\x00 \x00\x00P@\x00\x00\x00\x00@\x00\x00\x00\x00\x00\x00\x00\x10\x00\
                    \x00\x00\x00\x00\x00\x00\x00\x00\x00\x00\x00\x00\x00",
        cause: SetupCause::Framing,
        item: 0,
    },
];

pub const HEADED: [Headed; 11] = [
    Headed {
        name: "no byte",
        long_flags: &[false],
        packet: b"",
        head: PacketHead::Skip,
    },
    Headed {
        name: "a packet that is not an audio packet",
        long_flags: &[false],
        packet: b"\x05",
        head: PacketHead::Skip,
    },
    Headed {
        name: "one mode, which no bit names",
        long_flags: &[false],
        packet: b"\x00\xff",
        head: PacketHead::Block {
            mode: 0,
            prev: false,
            next: false,
        },
    },
    Headed {
        name: "a long block between short ones",
        long_flags: &[false, true],
        packet: b"\x02",
        head: PacketHead::Block {
            mode: 1,
            prev: false,
            next: false,
        },
    },
    Headed {
        name: "a long block behind a long one",
        long_flags: &[false, true],
        packet: b"\x06",
        head: PacketHead::Block {
            mode: 1,
            prev: true,
            next: false,
        },
    },
    Headed {
        name: "a long block before a long one",
        long_flags: &[false, true],
        packet: b"\x0a",
        head: PacketHead::Block {
            mode: 1,
            prev: false,
            next: true,
        },
    },
    Headed {
        name: "a short block, which has no window flags",
        long_flags: &[false, true],
        packet: b"\x0c",
        head: PacketHead::Block {
            mode: 0,
            prev: false,
            next: false,
        },
    },
    Headed {
        name: "the third of three modes",
        long_flags: &[true, true, false],
        packet: b"\x04",
        head: PacketHead::Block {
            mode: 2,
            prev: false,
            next: false,
        },
    },
    Headed {
        name: "the fourth of three modes",
        long_flags: &[true, true, false],
        packet: b"\x06",
        head: PacketHead::Bad,
    },
    Headed {
        name: "the last of 64 modes",
        long_flags: &[
            false, false, false, false, false, false, false, false, false, false, false, false,
            false, false, false, false, false, false, false, false, false, false, false, false,
            false, false, false, false, false, false, false, false, false, false, false, false,
            false, false, false, false, false, false, false, false, false, false, false, false,
            false, false, false, false, false, false, false, false, false, false, false, false,
            false, false, false, false,
        ],
        packet: b"~",
        head: PacketHead::Block {
            mode: 63,
            prev: false,
            next: false,
        },
    },
    Headed {
        name: "an end within the window flags",
        long_flags: &[
            true, true, true, true, true, true, true, true, true, true, true, true, true, true,
            true, true, true, true, true, true, true, true, true, true, true, true, true, true,
            true, true, true, true, true, true, true, true, true, true, true, true, true, true,
            true, true, true, true, true, true, true, true, true, true, true, true, true, true,
            true, true, true, true, true, true, true, true,
        ],
        packet: b"\xfe",
        head: PacketHead::Bad,
    },
];
