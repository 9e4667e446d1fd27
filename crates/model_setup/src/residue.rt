ghost use Rattle.std.specs.Prelude.{◌≡◌};
ghost use Rattle.model_setup.specs.declared.residue.ResidueFault.TheVariants.{Memory};

use std::alloc::{AllocError, AllocFailed};
use thiserror::Error;

/// How the vectors of a residue are coded (Vorbis I, sections 8.6.3 to 8.6.5).
#[derive(Clone, Copy, Debug, PartialEq, Eq)]
pub enum ResidueKind {
    /// Type 0: the values of each codebook vector are spread over a partition at equal steps.
    Spread,
    /// Type 1: the values of each codebook vector stand in a row.
    InRow,
    /// Type 2: all channels are one vector, line by line, coded as in type 1.
    Interleaved,
}

/// Why a residue could not be read: the first cause in reading order (Vorbis I, section 8.6.1).
#[derive(Debug, Drop, PartialEq, Eq, Error)]
pub enum ResidueFault {
    #[error("a residue has an unknown type")]
    Kind,
    #[error("the packet ends within a residue")]
    End,
    #[error("a residue names a codebook that is not there, or that does not serve there")]
    Book,
    #[error("out of memory")]
    Memory,
}

impl From<AllocError> for ResidueFault {
    ghost from_gives = { λ _ e. e ≡ Memory };

    fn from(_e: AllocError) -> ResidueFault {
        ResidueFault::Memory
    }
}

impl<T: Drop> From<AllocFailed<T>> for ResidueFault {
    ghost from_gives = { λ _ e. e ≡ Memory };

    fn from(_e: AllocFailed<T>) -> ResidueFault {
        ResidueFault::Memory
    }
}
