ghost use Rattle.std.specs.Prelude.{◌≡◌, ◌≢◌, ◌<◌, ◌≤◌, List, ℕ, IfOk, vec_len, length};
ghost use Rattle.vf_outside.specs.Told.{Told, MayGive, MayBeTooLong};
ghost use Rattle.vf_outside.specs.Faults.{Rose};
ghost use Rattle.vf_outside.specs.declared.shelf.FetchFault.TheVariants.{Memory};

use std::alloc::{AllocError, AllocFailed, Global};
use thiserror::Error;

/// Why a file was not fetched.
#[derive(Clone, Copy, Debug, PartialEq, Eq, Error)]
pub enum FetchFault {
    /// The file is not there, or a read of it failed.
    #[error("the file cannot be read")]
    Failed,
    /// The file has more bytes than the limit.
    #[error("the file is too long")]
    TooLong,
    /// Memory ran out.
    #[error("out of memory")]
    Memory,
}

impl From<AllocError> for FetchFault {
    ghost from_gives = { λ _ fault. fault ≡ Memory };

    fn from(_: AllocError) -> Self {
        FetchFault::Memory
    }
}

impl<T: Drop> From<AllocFailed<T>> for FetchFault {
    ghost from_gives = { λ _ fault. fault ≡ Memory };

    fn from(_: AllocFailed<T>) -> Self {
        FetchFault::Memory
    }
}

/// Files by their names: a map from names to bytes, and for each name a count of faults. The count
/// never falls, and stands still at 2^64 - 1.
pub trait Shelf {
    /// What is told of a name's bytes.
    ghost told: { Self → List ℕ → Told };

    /// The count of a name's faults.
    ghost faults: { Self → List ℕ → ℕ };

    /// Gives the bytes of the file of this name, where there are at most `limit` of them. No call
    /// changes the map.
    ///
    /// # Errors
    /// `Failed` only where the name's count of faults rose in this call. `TooLong` where the call
    /// did not fail and the file has more bytes than `limit`. `Memory` where memory ran out.
    fn fetch(&mut self, alloc: Global, name: &str, limit: u64) -> Result<Vec<u8>, FetchFault>
        ensures bound { IfOk result (λ bytes. vec_len bytes ≤ limit) }
        ensures bytes { IfOk result (λ bytes. MayGive (told self.old name.now) bytes.items) }
        ensures too_long { result ≡ Err FetchFault.TooLong
            → MayBeTooLong (told self.old name.now) limit }
        ensures failed { result ≡ Err FetchFault.Failed
            → Rose (faults self.old name.now) (faults self.new name.now) }
        ensures later { (other : List ℕ) → faults self.old other ≤ faults self.new other }
        ensures unchanged { (other : List ℕ) → told self.new other ≡ told self.old other };
}

/// A copy of the bytes, where there are at most `limit` of them.
pub(crate) fn copy_within(alloc: Global, bytes: &[u8], limit: u64) -> Result<Vec<u8>, FetchFault>
    ensures copied { IfOk result (λ copy. copy.items ≡ bytes.now) }
    ensures bound { IfOk result (λ copy. length bytes.now ≤ limit) }
    ensures len { IfOk result (λ copy. vec_len copy ≤ limit) }
    ensures too_long { result ≡ Err FetchFault.TooLong → limit < length bytes.now }
    ensures not_failed { result ≢ Err FetchFault.Failed }
{
    if bytes.len() as u64 > limit {
        return Err(FetchFault::TooLong);
    }
    Ok(bytes.to_vec(alloc)?)
}
