ghost use Rattle.std.specs.Prelude.{◌≡◌, ◌<◌, ◌≤◌, List, ℕ, length, OnOk, Option};
ghost use Rattle.std.specs.Io.KnownBytes.{Appends, Keeps};
ghost use Rattle.vf_outside.specs.Told.{AppendsPart};
ghost use Rattle.vf_outside.specs.Faults.{Rose};
ghost use Rattle.vf_outside.specs.declared.sink.PutFault.TheVariants.{Memory};

use std::alloc::AllocError;
use thiserror::Error;

/// Why bytes were not written.
#[derive(Clone, Copy, Debug, PartialEq, Eq, Error)]
pub enum PutFault {
    /// A write failed.
    #[error("the output cannot be written")]
    Failed,
    /// Memory ran out.
    #[error("out of memory")]
    Memory,
}

impl From<AllocError> for PutFault {
    ghost from_gives = { λ _ fault. fault ≡ Memory };

    fn from(_: AllocError) -> Self {
        PutFault::Memory
    }
}

/// A stream that is written to: its bytes, and a count of faults. The count never falls, and stands
/// still at 2^64 - 1.
pub trait Sink {
    /// The bytes written so far, where they are told.
    ghost written: { Self → Option (List ℕ) };

    /// The count of faults.
    ghost faults: { Self → ℕ };

    /// Writes all of the bytes.
    ///
    /// # Errors
    /// `Failed` only where the count of faults rose in this call; a front of the bytes may then
    /// have been written. `Memory` where memory ran out; nothing was written then.
    fn put(&mut self, bytes: &[u8]) -> Result<(), PutFault>
        requires { 0 < length bytes.now }
        ensures ok { OnOk result (Appends (written self.old) (written self.new) bytes.now) }
        ensures failed { result ≡ Err PutFault.Failed → Rose (faults self.old) (faults self.new) }
        ensures part { result ≡ Err PutFault.Failed
            → AppendsPart (written self.old) (written self.new) bytes.now }
        ensures memory { result ≡ Err PutFault.Memory
            → Keeps (written self.old) (written self.new) }
        ensures later { faults self.old ≤ faults self.new };
}
