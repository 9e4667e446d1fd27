ghost use Rattle.std.specs.Prelude.{◌≡◌, ◌≢◌, ◌<◌, ◌≤◌, [], Some, IfOk, OnOk, vec_len, length, unwrap_or};
ghost use Rattle.std.specs.Io.KnownBytes.{Appends, Keeps};
ghost use Rattle.vf_outside.specs.Memory.{entries, held};

use crate::memory_shelf::find_place;
use crate::shelf::{FetchFault, Shelf, copy_within};
use crate::sink::{PutFault, Sink};
use std::alloc::Global;
use std::marker::Model;

/// A shelf in memory that holds every name and never fails. A name that it was not given has no
/// bytes.
#[derive(Drop)]
pub struct CleanShelf {
    files: Vec<(String, Vec<u8>)>,
}

impl Model for CleanShelf {
    ghost use Rattle.vf_outside.specs.Memory.{Files, entries};

    ghost Value = { Files };

    ghost view = { λ s. entries s.files.items };
}

impl CleanShelf {
    /// Holds these names with their bytes; of equal names the first counts.
    pub fn new(files: Vec<(String, Vec<u8>)>) -> Self
        ensures { result ≡ entries files.items }
    {
        CleanShelf { files }
    }
}

/// The bytes of the first file of this name, or none.
fn bytes_of<'a>(files: &'a [(String, Vec<u8>)], name: &str) -> &'a [u8]
    ensures { result.now ≡ unwrap_or (held (entries files.now) name.now) [] }
{
    match files.get(find_place(files, name)) {
        Some(file) => &file.1,
        None => &[],
    }
}

impl Shelf for CleanShelf {
    ghost told = { λ s name. Some (Some (unwrap_or (held s name) [])) };

    ghost faults = { λ _ _. 0 };

    fn fetch(&mut self, alloc: Global, name: &str, limit: u64) -> Result<Vec<u8>, FetchFault>
        ensures bound { IfOk result (λ bytes. vec_len bytes ≤ limit) }
        ensures bytes { IfOk result (λ bytes. bytes.items ≡ unwrap_or (held self.old name.now) []) }
        ensures too_long { result ≡ Err FetchFault.TooLong
            → limit < length (unwrap_or (held self.old name.now) []) }
        ensures not_failed { result ≢ Err FetchFault.Failed }
        ensures unchanged { self.new ≡ self.old }
    {
        copy_within(alloc, bytes_of(&self.files, name), limit)
    }
}

/// A sink in memory that never fails.
#[derive(Drop)]
pub struct CleanSink {
    bytes: Vec<u8>,
}

impl Model for CleanSink {
    ghost use Rattle.std.specs.Prelude.{List, ℕ};

    ghost Value = { List ℕ };

    ghost view = { λ s. s.bytes.items };
}

impl CleanSink {
    /// Begins with no bytes.
    pub fn new(alloc: Global) -> Self
        ensures { result ≡ [] }
    {
        CleanSink {
            bytes: Vec::new(alloc),
        }
    }

    /// Lends the bytes written so far.
    pub fn written(&self) -> &[u8]
        ensures { result.now ≡ self.now }
    {
        &self.bytes
    }
}

impl Sink for CleanSink {
    ghost written = { λ s. Some s };

    ghost faults = { λ _. 0 };

    fn put(&mut self, bytes: &[u8]) -> Result<(), PutFault>
        requires { 0 < length bytes.now }
        ensures ok { OnOk result (Appends (Some self.old) (Some self.new) bytes.now) }
        ensures memory { result ≡ Err PutFault.Memory → Keeps (Some self.old) (Some self.new) }
        ensures not_failed { result ≢ Err PutFault.Failed }
    {
        Ok(self.bytes.extend_from_slice(bytes)?)
    }
}
