ghost use Rattle.std.specs.Prelude.{◌≡◌};
ghost use Rattle.film_dump.specs.Dumps.{fault_of_put};
ghost use Rattle.film_dump.specs.declared.fault.DumpFault.TheVariants.{Memory};

use memory::NoMemory;
use std::alloc::AllocError;
use thiserror::Error;
use vf_outside::PutFault;

/// Why a dump was not written whole.
#[derive(Clone, Copy, Debug, PartialEq, Eq, Error)]
pub enum DumpFault {
    /// A write failed.
    #[error("the output cannot be written")]
    Failed,
    /// No memory was found.
    #[error("out of memory")]
    Memory,
}

impl From<PutFault> for DumpFault {
    ghost from_gives = { λ put fault. fault ≡ fault_of_put put };

    fn from(fault: PutFault) -> Self {
        match fault {
            PutFault::Failed => DumpFault::Failed,
            PutFault::Memory => DumpFault::Memory,
        }
    }
}

impl From<NoMemory> for DumpFault {
    ghost from_gives = { λ _ fault. fault ≡ Memory };

    fn from(_: NoMemory) -> Self {
        DumpFault::Memory
    }
}

impl From<AllocError> for DumpFault {
    ghost from_gives = { λ _ fault. fault ≡ Memory };

    fn from(_: AllocError) -> Self {
        DumpFault::Memory
    }
}
