ghost use Rattle.std.specs.Prelude.{◌≡◌};
ghost use Rattle.model_line.specs.declared.film.FilmFault.TheVariants.{Memory};

use memory::NoMemory;
use model_ogg::LinkFault;
use model_setup::{CommentCause, IdentCause, SetupCause};
use std::alloc::{AllocError, AllocFailed};
use std::error::Error;
use std::fmt;

/// The most channels that a link may have.
pub const MOST_CHANNELS: u8 = 8;

/// Why a film is refused.
#[derive(Clone, Copy, Debug, PartialEq, Eq)]
pub enum FilmFault {
    /// No page is the first of a stream.
    NoLink,
    /// A link has no Vorbis stream.
    NoVorbis {
        link: u32,
    },
    /// A loss, or the stream's end, comes before a link's third packet.
    HeadMissing {
        link: u32,
    },
    /// A link's first packet is no identification.
    Ident {
        link: u32,
        cause: IdentCause,
    },
    /// A link's second packet is no comment.
    Comment {
        link: u32,
        cause: CommentCause,
    },
    /// A link has more than `MOST_CHANNELS` channels.
    Channels {
        link: u32,
        n: u8,
    },
    /// A link's third packet is no setup: it is refused by this cause at this item, which is the
    /// number of the book, the time domain transform, the floor, the residue, the mapping or the
    /// mode, and else 0.
    Setup {
        link: u32,
        cause: SetupCause,
        item: u32,
    },
    /// There are more than `MOST_LINKS` links.
    TooManyLinks,
    /// There are more than `MOST_ENTRIES` packets and losses.
    TooManyPackets,
    /// No memory was found.
    Memory,
}

/// The numbers of a link's stream. Its pages are those up to its last page; its packets include the
/// headers.
#[derive(Clone, Copy, Debug, PartialEq, Eq)]
pub struct LinkCounts {
    /// The number of its stream.
    pub serial: u32,
    /// How many pages it has.
    pub pages: u32,
    /// How many packets it has.
    pub packets: u32,
    /// How many losses it has.
    pub lost: u32,
}

impl fmt::Display for FilmFault {
    ghost use Rattle.std.specs.Prelude.{Some};
    ghost use Rattle.model_line.specs.FaultTexts.{fault_text};

    ghost output = { λ s. Some (fault_text s) };

    fn fmt<W: fmt::Write>(&self, f: &mut fmt::Formatter<W>) -> fmt::Result {
        match *self {
            FilmFault::NoLink => write!(f, "film no link"),
            FilmFault::NoVorbis { link } => write!(f, "film link {link} no vorbis"),
            FilmFault::HeadMissing { link } => write!(f, "film link {link} headers missing"),
            FilmFault::Ident { link, cause } => write!(f, "film link {link} ident {cause}"),
            FilmFault::Comment { link, cause } => write!(f, "film link {link} comment {cause}"),
            FilmFault::Channels { link, n } => write!(f, "film link {link} channels {n}"),
            FilmFault::Setup { link, cause, item } => {
                write!(f, "film link {link} setup {cause} {item}")
            }
            FilmFault::TooManyLinks => write!(f, "film too many links"),
            FilmFault::TooManyPackets => write!(f, "film too many packets"),
            FilmFault::Memory => write!(f, "memory"),
        }
    }
}

impl Error for FilmFault {}

impl From<LinkFault> for FilmFault {
    ghost use Rattle.model_line.specs.LinkFaults.{of_links};

    ghost from_gives = { λ links fault. fault ≡ of_links links };

    fn from(links: LinkFault) -> Self {
        match links {
            LinkFault::NoLink => FilmFault::NoLink,
            LinkFault::NoVorbis { link } => FilmFault::NoVorbis { link },
            LinkFault::TooManyLinks => FilmFault::TooManyLinks,
            LinkFault::Memory => FilmFault::Memory,
        }
    }
}

impl From<NoMemory> for FilmFault {
    ghost from_gives = { λ _ fault. fault ≡ Memory };

    fn from(_: NoMemory) -> Self {
        FilmFault::Memory
    }
}

impl From<AllocError> for FilmFault {
    ghost from_gives = { λ _ fault. fault ≡ Memory };

    fn from(_: AllocError) -> Self {
        FilmFault::Memory
    }
}

impl<T: Drop> From<AllocFailed<T>> for FilmFault {
    ghost from_gives = { λ _ fault. fault ≡ Memory };

    fn from(_: AllocFailed<T>) -> Self {
        FilmFault::Memory
    }
}
