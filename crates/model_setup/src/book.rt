ghost use Rattle.std.specs.Prelude.{◌≡◌};
ghost use Rattle.model_setup.specs.declared.book.BookFault.TheVariants.{Memory};

use std::alloc::{AllocError, AllocFailed};
use thiserror::Error;

/// More entries than any codebook has: their number is a field of 24 bits (Vorbis I, section
/// 3.2.1).
pub const ENTRY_LIMIT: u32 = 1 << 24;

/// More dimensions than any codebook has: their number is a field of 16 bits.
pub const DIMENSION_LIMIT: u32 = 1 << 16;

/// How many entries and multiplicands the codebooks of one setup may still hold.
#[derive(Clone, Copy, Debug, PartialEq, Eq)]
pub struct Budget {
    pub entries: u32,
    pub multiplicands: u32,
}

/// The codeword of a used entry, as the numbers below 2^32 whose highest bits it is: an interval
/// of 2^(32 - len) numbers from `start` on. The codeword is the `len` highest bits of `start`.
#[derive(Clone, Copy, Debug, PartialEq, Eq)]
pub struct Word {
    pub entry: u32,
    /// How many bits the codeword has, 1 to 32.
    pub len: u8,
    pub start: u32,
}

/// How a codebook's lookup makes the values of an entry's vector (Vorbis I, section 3.2.1).
#[derive(Clone, Copy, Debug, PartialEq, Eq)]
pub enum LookupKind {
    /// Type 1: all entries share the multiplicands, and the digits of an entry's number name its
    /// own.
    Lattice,
    /// Type 2: each entry has multiplicands of its own.
    Tessellation,
}

/// Why a codebook could not be read (Vorbis I, section 3.2.1).
#[derive(Debug, Drop, PartialEq, Eq, Error)]
pub enum BookFault {
    #[error("the packet ends within a codebook")]
    End,
    #[error("a codebook does not begin with its sync pattern")]
    Sync,
    #[error("the lengths of a codebook's codewords make no whole tree")]
    Tree,
    #[error("a codebook has an unknown lookup, or a lookup without dimensions")]
    Lookup,
    #[error("the codebooks have more entries or multiplicands than a setup may hold")]
    Limit,
    #[error("out of memory")]
    Memory,
}

impl From<AllocError> for BookFault {
    ghost from_gives = { λ _ e. e ≡ Memory };

    fn from(_e: AllocError) -> BookFault {
        BookFault::Memory
    }
}

impl<T: Drop> From<AllocFailed<T>> for BookFault {
    ghost from_gives = { λ _ e. e ≡ Memory };

    fn from(_e: AllocFailed<T>) -> BookFault {
        BookFault::Memory
    }
}
