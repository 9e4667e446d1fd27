use std::error::Error;
use std::fmt;

/// What an identification packet says (Vorbis I, section 4.2.2).
#[derive(Clone, Copy, Debug, PartialEq, Eq)]
pub struct IdentFields {
    /// How many channels, at least 1.
    pub channels: u8,
    /// Samples of a channel in a second, at least 1.
    pub rate: u32,
    /// The size of a short block: a power of two, 64 to 8192.
    pub short: u32,
    /// The size of a long block: a power of two, 64 to 8192, and no less than that of a short one.
    pub long: u32,
}

/// Why a packet doesn't begin as a header packet of its type does (Vorbis I, section 4.2.1).
#[derive(Clone, Copy, Debug, PartialEq, Eq)]
pub enum StartCause {
    /// A byte is another one.
    Kind,
    /// A byte is missing.
    End,
}

/// Why a packet isn't an identification packet: the first cause in the order of its fields.
#[derive(Clone, Copy, Debug, PartialEq, Eq)]
pub enum IdentCause {
    /// It begins otherwise.
    Kind,
    /// It ends early.
    End,
    /// Its version isn't 0.
    Version,
    /// It has no channels.
    Channels,
    /// Its rate is 0.
    Rate,
    /// The sizes of its blocks are out of range or of order.
    Blocks,
    /// Its framing bit isn't set.
    Framing,
}

/// Why a packet isn't a comment packet: the first cause in the order of its fields.
#[derive(Clone, Copy, Debug, PartialEq, Eq)]
pub enum CommentCause {
    /// It begins otherwise.
    Kind,
    /// It ends early.
    End,
    /// Its framing bit isn't set.
    Framing,
}

impl From<StartCause> for IdentCause {
    ghost use Rattle.std.specs.Prelude.{◌≡◌};
    ghost use Rattle.model_setup.specs.HeaderPackets.{ident_start};

    ghost from_gives = { λ start cause. cause ≡ ident_start start };

    fn from(start: StartCause) -> IdentCause {
        match start {
            StartCause::Kind => IdentCause::Kind,
            StartCause::End => IdentCause::End,
        }
    }
}

impl From<StartCause> for CommentCause {
    ghost use Rattle.std.specs.Prelude.{◌≡◌};
    ghost use Rattle.model_setup.specs.HeaderPackets.{comment_start};

    ghost from_gives = { λ start cause. cause ≡ comment_start start };

    fn from(start: StartCause) -> CommentCause {
        match start {
            StartCause::Kind => CommentCause::Kind,
            StartCause::End => CommentCause::End,
        }
    }
}

impl fmt::Display for IdentCause {
    ghost use Rattle.std.specs.Prelude.{Some};
    ghost use Rattle.model_setup.specs.HeaderPackets.{ident_word};

    ghost output = { λ cause. Some (ident_word cause) };

    fn fmt<W: fmt::Write>(&self, f: &mut fmt::Formatter<W>) -> fmt::Result {
        let word = match self {
            IdentCause::Kind => "kind",
            IdentCause::End => "end",
            IdentCause::Version => "version",
            IdentCause::Channels => "channels",
            IdentCause::Rate => "rate",
            IdentCause::Blocks => "blocks",
            IdentCause::Framing => "framing",
        };
        write!(f, "{word}")
    }
}

impl fmt::Display for CommentCause {
    ghost use Rattle.std.specs.Prelude.{Some};
    ghost use Rattle.model_setup.specs.HeaderPackets.{comment_word};

    ghost output = { λ cause. Some (comment_word cause) };

    fn fmt<W: fmt::Write>(&self, f: &mut fmt::Formatter<W>) -> fmt::Result {
        let word = match self {
            CommentCause::Kind => "kind",
            CommentCause::End => "end",
            CommentCause::Framing => "framing",
        };
        write!(f, "{word}")
    }
}

impl Error for IdentCause {}

impl Error for CommentCause {}
