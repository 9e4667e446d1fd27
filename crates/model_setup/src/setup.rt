ghost use Rattle.std.specs.Prelude.{◌≡◌};
ghost use Rattle.model_setup.specs.declared.setup.SetupFault.TheVariants.{Memory};

use std::alloc::{AllocError, AllocFailed};
use std::error::Error;
use std::fmt;

/// How many entries all codebooks of a setup may have together, and how many multiplicands.
pub const BOOK_BUDGET: u32 = 1 << 20;

/// Why a packet isn't a setup packet: the first cause in the order of its fields (Vorbis I, section
/// 4.2.4).
#[derive(Clone, Copy, Debug, PartialEq, Eq)]
pub enum SetupCause {
    /// It begins otherwise than a setup packet does.
    Kind,
    /// It ends early.
    End,
    /// A codebook does not begin with its sync pattern.
    BookSync,
    /// The lengths of a codebook's codewords make no whole tree.
    BookTree,
    /// A codebook has an unknown lookup, or a lookup without dimensions.
    BookLookup,
    /// The codebooks have more entries or multiplicands than a setup may hold.
    BookLimit,
    /// A time domain transform isn't 0.
    Time,
    /// A floor is of type 0, which is not decoded.
    FloorZero,
    /// A floor is of a type above 1.
    FloorKind,
    /// A floor names a codebook that isn't there.
    FloorBook,
    /// A floor has too many points, or two points at one bin.
    FloorList,
    /// A residue is of a type above 2.
    ResidueKind,
    /// A residue names a codebook that isn't there, or that doesn't serve there.
    ResidueBook,
    /// A mapping's type isn't 0.
    MappingKind,
    /// A coupling step names a channel that isn't there, or one channel twice.
    MappingCoupling,
    /// A mapping's reserved bits aren't 0.
    MappingReserved,
    /// A channel names a submap that isn't there.
    MappingMux,
    /// A submap names a floor that isn't there.
    MappingFloor,
    /// A submap names a residue that isn't there.
    MappingResidue,
    /// A mode's window type isn't 0.
    ModeWindow,
    /// A mode's transform type isn't 0.
    ModeTransform,
    /// A mode names a mapping that isn't there.
    ModeMapping,
    /// The framing bit isn't set.
    Framing,
}

/// Why a setup packet could not be read.
#[derive(Clone, Copy, Debug, PartialEq, Eq)]
pub enum SetupFault {
    /// The packet is refused by this cause at this item, which is the number of the book, the time
    /// domain transform, the floor, the residue, the mapping or the mode, and else 0.
    Bad { cause: SetupCause, item: u32 },
    /// No memory was found.
    Memory,
}

/// What the head of an audio packet says (Vorbis I, section 4.3.1).
#[derive(Clone, Copy, Debug, PartialEq, Eq)]
pub enum PacketHead {
    /// The packet is empty, or no audio packet: it is passed over.
    Skip,
    /// The packet names a mode that isn't there, or ends within its head.
    Bad,
    /// The packet decodes to a block of this mode. Of a long block `prev` and `next` are the window
    /// flags, which say whether the block before it and the block after it are long; of a short
    /// block they are false.
    Block { mode: u8, prev: bool, next: bool },
}

impl fmt::Display for SetupCause {
    ghost use Rattle.std.specs.Prelude.{Some};
    ghost use Rattle.model_setup.specs.SetupCauses.{setup_word};

    ghost output = { λ cause. Some (setup_word cause) };

    fn fmt<W: fmt::Write>(&self, f: &mut fmt::Formatter<W>) -> fmt::Result {
        let word = match self {
            SetupCause::Kind => "kind",
            SetupCause::End => "end",
            SetupCause::BookSync => "book-sync",
            SetupCause::BookTree => "book-tree",
            SetupCause::BookLookup => "book-lookup",
            SetupCause::BookLimit => "book-limit",
            SetupCause::Time => "time",
            SetupCause::FloorZero => "floor-zero",
            SetupCause::FloorKind => "floor-kind",
            SetupCause::FloorBook => "floor-book",
            SetupCause::FloorList => "floor-list",
            SetupCause::ResidueKind => "residue-kind",
            SetupCause::ResidueBook => "residue-book",
            SetupCause::MappingKind => "mapping-kind",
            SetupCause::MappingCoupling => "mapping-coupling",
            SetupCause::MappingReserved => "mapping-reserved",
            SetupCause::MappingMux => "mapping-mux",
            SetupCause::MappingFloor => "mapping-floor",
            SetupCause::MappingResidue => "mapping-residue",
            SetupCause::ModeWindow => "mode-window",
            SetupCause::ModeTransform => "mode-transform",
            SetupCause::ModeMapping => "mode-mapping",
            SetupCause::Framing => "framing",
        };
        write!(f, "{word}")
    }
}

impl Error for SetupCause {}

impl fmt::Display for SetupFault {
    ghost use Rattle.std.specs.Prelude.{Some};
    ghost use Rattle.model_setup.specs.SetupCauses.{setup_fault_text};

    ghost output = { λ fault. Some (setup_fault_text fault) };

    fn fmt<W: fmt::Write>(&self, f: &mut fmt::Formatter<W>) -> fmt::Result {
        match *self {
            SetupFault::Bad { cause, item } => write!(f, "setup {cause} {item}"),
            SetupFault::Memory => write!(f, "out of memory"),
        }
    }
}

impl Error for SetupFault {}

impl From<AllocError> for SetupFault {
    ghost from_gives = { λ _ fault. fault ≡ Memory };

    fn from(_: AllocError) -> Self {
        SetupFault::Memory
    }
}

impl<T: Drop> From<AllocFailed<T>> for SetupFault {
    ghost from_gives = { λ _ fault. fault ≡ Memory };

    fn from(_: AllocFailed<T>) -> Self {
        SetupFault::Memory
    }
}

/// A coupling step: the two channels of which one has magnitudes and the other angles (Vorbis I,
/// section 4.3.5).
#[derive(Debug, Drop)]
pub struct Coupling {
    /// The number of the channel of magnitudes.
    pub magnitude: u8,
    /// The number of the channel of angles.
    pub angle: u8,
}
