//! `head_packets`: identification and comment packets, and what they say.

use head_packets::{CommentCause, IdentCause, IdentFields, comment, ident};
use std::alloc::AllocError;

/// What the packet of the file says.
const STEREO: IdentFields = IdentFields {
    channels: 2,
    rate: 44100,
    short: 256,
    long: 2048,
};

/// What a row shows, a packet and what it is read as. The first row is the packet of a file that
/// oggenc made of a second of sound at 44100 Hz in two channels; the others change a byte of it,
/// cut it or add to it.
const IDENTIFICATION: [(&str, &[u8], Result<IdentFields, IdentCause>); 20] = [
    (
        "the packet of a file",
        b"\x01vorbis\x00\x00\x00\x00\x02D\xac\x00\x00\x00\x00\x00\x00\x80\xb5\x01\x00\
          \x00\x00\x00\x00\xb8\x01",
        Ok(STEREO),
    ),
    (
        "more bytes behind it",
        b"\x01vorbis\x00\x00\x00\x00\x02D\xac\x00\x00\x00\x00\x00\x00\x80\xb5\x01\x00\
          \x00\x00\x00\x00\xb8\x01more",
        Ok(STEREO),
    ),
    (
        "the sizes 64 and 8192",
        b"\x01vorbis\x00\x00\x00\x00\x02D\xac\x00\x00\x00\x00\x00\x00\x80\xb5\x01\x00\
          \x00\x00\x00\x00\xd6\x01",
        Ok(IdentFields {
            channels: 2,
            rate: 44100,
            short: 64,
            long: 8192,
        }),
    ),
    (
        "255 channels and the sizes 64 and 64",
        b"\x01vorbis\x00\x00\x00\x00\xffD\xac\x00\x00\x00\x00\x00\x00\x80\xb5\x01\x00\
          \x00\x00\x00\x00f\x01",
        Ok(IdentFields {
            channels: 255,
            rate: 44100,
            short: 64,
            long: 64,
        }),
    ),
    (
        "a framing byte of ones",
        b"\x01vorbis\x00\x00\x00\x00\x02D\xac\x00\x00\x00\x00\x00\x00\x80\xb5\x01\x00\
          \x00\x00\x00\x00\xb8\xff",
        Ok(STEREO),
    ),
    (
        "the type of a comment packet",
        b"\x03vorbis\x00\x00\x00\x00\x02D\xac\x00\x00\x00\x00\x00\x00\x80\xb5\x01\x00\
          \x00\x00\x00\x00\xb8\x01",
        Err(IdentCause::Kind),
    ),
    (
        "another word for vorbis",
        b"\x01vorbiS\x00\x00\x00\x00\x02D\xac\x00\x00\x00\x00\x00\x00\x80\xb5\x01\x00\
          \x00\x00\x00\x00\xb8\x01",
        Err(IdentCause::Kind),
    ),
    ("an end within the word", b"\x01vorbi", Err(IdentCause::End)),
    ("no byte", b"", Err(IdentCause::End)),
    (
        "version 1",
        b"\x01vorbis\x01\x00\x00\x00\x02D\xac\x00\x00\x00\x00\x00\x00\x80\xb5\x01\x00\
          \x00\x00\x00\x00\xb8\x01",
        Err(IdentCause::Version),
    ),
    (
        "version 2^24 and an end behind it",
        b"\x01vorbis\x00\x00\x00\x01",
        Err(IdentCause::Version),
    ),
    (
        "an end within the version",
        b"\x01vorbis\x00\x00\x00",
        Err(IdentCause::End),
    ),
    (
        "no channels",
        b"\x01vorbis\x00\x00\x00\x00\x00",
        Err(IdentCause::Channels),
    ),
    (
        "rate 0",
        b"\x01vorbis\x00\x00\x00\x00\x02\x00\x00\x00\x00\x00\x00\x00\x00\x80\xb5\x01\
          \x00\x00\x00\x00\x00\xb8\x01",
        Err(IdentCause::Rate),
    ),
    (
        "an end within the bitrates",
        b"\x01vorbis\x00\x00\x00\x00\x02D\xac\x00\x00\x00\x00\x00\x00\x80\xb5\x01\x00\
          \x00\x00\x00",
        Err(IdentCause::End),
    ),
    (
        "a short block of 32",
        b"\x01vorbis\x00\x00\x00\x00\x02D\xac\x00\x00\x00\x00\x00\x00\x80\xb5\x01\x00\
          \x00\x00\x00\x00\xb5\x01",
        Err(IdentCause::Blocks),
    ),
    (
        "a long block of 16384",
        b"\x01vorbis\x00\x00\x00\x00\x02D\xac\x00\x00\x00\x00\x00\x00\x80\xb5\x01\x00\
          \x00\x00\x00\x00\xe8\x01",
        Err(IdentCause::Blocks),
    ),
    (
        "a long block shorter than the short one",
        b"\x01vorbis\x00\x00\x00\x00\x02D\xac\x00\x00\x00\x00\x00\x00\x80\xb5\x01\x00\
          \x00\x00\x00\x00\x8b",
        Err(IdentCause::Blocks),
    ),
    (
        "no framing bit",
        b"\x01vorbis\x00\x00\x00\x00\x02D\xac\x00\x00\x00\x00\x00\x00\x80\xb5\x01\x00\
          \x00\x00\x00\x00\xb8",
        Err(IdentCause::End),
    ),
    (
        "framing bit 0",
        b"\x01vorbis\x00\x00\x00\x00\x02D\xac\x00\x00\x00\x00\x00\x00\x80\xb5\x01\x00\
          \x00\x00\x00\x00\xb8\xfe",
        Err(IdentCause::Framing),
    ),
];

/// The same of comment packets. The first row is the packet of the same file.
const COMMENT: [(&str, &[u8], Result<u32, CommentCause>); 15] = [
    (
        "the packet of a file",
        b"\x03vorbis4\x00\x00\x00Xiph.Org libVorbis I 20200704 (Reducing Environment)\
          \x00\x00\x00\x00\x01",
        Ok(0),
    ),
    (
        "two texts",
        b"\x03vorbis\x02\x00\x00\x00me\x02\x00\x00\x00\x07\x00\x00\x00TITLE=a\x00\x00\
          \x00\x00\x01",
        Ok(2),
    ),
    (
        "more bytes behind it",
        b"\x03vorbis\x00\x00\x00\x00\x00\x00\x00\x00\xffmore",
        Ok(0),
    ),
    (
        "the type of a setup packet",
        b"\x05vorbis4\x00\x00\x00Xiph.Org libVorbis I 20200704 (Reducing Environment)\
          \x00\x00\x00\x00\x01",
        Err(CommentCause::Kind),
    ),
    ("an end within the word", b"\x03vo", Err(CommentCause::End)),
    (
        "an end within the vendor's length",
        b"\x03vorbis4\x00",
        Err(CommentCause::End),
    ),
    (
        "an end within the vendor's text",
        b"\x03vorbis\x03\x00\x00\x00me",
        Err(CommentCause::End),
    ),
    (
        "a vendor's text past the end",
        b"\x03vorbis\xff\xff\xff\xff",
        Err(CommentCause::End),
    ),
    (
        "no framing bit",
        b"\x03vorbis4\x00\x00\x00Xiph.Org libVorbis I 20200704 (Reducing Environment)\
          \x00\x00\x00\x00",
        Err(CommentCause::End),
    ),
    (
        "an end within the number of texts",
        b"\x03vorbis4\x00\x00\x00Xiph.Org libVorbis I 20200704 (Reducing Environment)\
          \x00\x00\x00",
        Err(CommentCause::End),
    ),
    (
        "texts past the end",
        b"\x03vorbis\x00\x00\x00\x00\xff\xff\xff\xff",
        Err(CommentCause::End),
    ),
    (
        "a text past the end",
        b"\x03vorbis\x00\x00\x00\x00\x01\x00\x00\x00\xff\xff\xff\xffx\x01",
        Err(CommentCause::End),
    ),
    (
        "an end before the second text",
        b"\x03vorbis\x00\x00\x00\x00\x02\x00\x00\x00\x01\x00\x00\x00x\x01",
        Err(CommentCause::End),
    ),
    (
        "framing bit 0",
        b"\x03vorbis4\x00\x00\x00Xiph.Org libVorbis I 20200704 (Reducing Environment)\
          \x00\x00\x00\x00\xfe",
        Err(CommentCause::Framing),
    ),
    (
        "a vendor's length past 2^24",
        b"\x03vorbis\x00\x00\x00\x01\x00\x00\x00\x00\x01",
        Err(CommentCause::End),
    ),
];

#[test]
fn reads_identification(rt: HostRuntime) {
    for (name, bytes, wanted) in &IDENTIFICATION {
        assert_eq!(&rt; ident(bytes), *wanted, "{name}");
    }
}

#[test]
fn reads_comment(rt: HostRuntime) {
    for (name, bytes, wanted) in &COMMENT {
        assert_eq!(&rt; comment(bytes), *wanted, "{name}");
    }
}

#[test]
fn names_causes(rt: HostRuntime) -> Result<(), AllocError> {
    assert_eq!(&rt;
        IdentCause::Channels.to_string(rt.alloc())?.as_str(),
        "channels"
    );
    assert_eq!(&rt;
        CommentCause::Framing.to_string(rt.alloc())?.as_str(),
        "framing"
    );
    Ok(())
}
