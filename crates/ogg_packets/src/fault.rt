ghost use Rattle.std.specs.Prelude.{◌≡◌};
ghost use Rattle.ogg_packets.specs.declared.fault.EntryFault.TheVariants.{Memory};

use memory::NoMemory;
use std::alloc::AllocFailed;
use thiserror::Error;

/// Why the entries of a stream were not given.
#[derive(Clone, Copy, Debug, PartialEq, Eq, Error)]
pub enum EntryFault {
    /// There are more than the limit.
    #[error("too many packets")]
    TooMany,
    /// No memory was found for them.
    #[error("out of memory")]
    Memory,
}

impl From<NoMemory> for EntryFault {
    ghost from_gives = { λ _ fault. fault ≡ Memory };

    fn from(_: NoMemory) -> Self {
        EntryFault::Memory
    }
}

impl<T: Drop> From<AllocFailed<T>> for EntryFault {
    ghost from_gives = { λ _ fault. fault ≡ Memory };

    fn from(_: AllocFailed<T>) -> Self {
        EntryFault::Memory
    }
}
