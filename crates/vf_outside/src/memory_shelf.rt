ghost use Rattle.std.specs.Prelude.{◌≡◌, ◌≢◌, ◌+◌, ◌≤◌, ℕ, List, [], Some, IfOk, IfErr, vec_len, length};
ghost use Rattle.vf_outside.specs.Told.{MayGive, MayBeTooLong};
ghost use Rattle.vf_outside.specs.Faults.{Rose};
ghost use Rattle.vf_outside.specs.Memory.{entries, place_of, held, fault_count, is_next_failing, Gives, Refuses, after_fetch};

use crate::shelf::{FetchFault, Shelf, copy_within};
use std::alloc::Global;
use std::marker::Model;

/// A shelf in memory, whose calls with given numbers fail.
///
/// A name that it doesn't hold counts as a fault. It counts for each held name by itself, and for
/// all other names together.
#[derive(Drop)]
pub struct MemShelf {
    files: Vec<(String, Vec<u8>)>,
    failing: Vec<u64>,
    calls: u64,
    // For each fault the place of its name among the files, or the number of files.
    faulted: Vec<usize>,
}

impl Model for MemShelf {
    ghost use Rattle.vf_outside.specs.Memory.{ShelfState, entries};

    ghost Value = { ShelfState };

    ghost view = { λ s. record {
      files = entries s.files.items;
      failing = s.failing.items;
      calls = s.calls;
      faulted = s.faulted.items;
    } };
}

/// The place of the first file of this name, or the number of files.
pub(crate) fn find_place(files: &[(String, Vec<u8>)], name: &str) -> usize
    ensures place { result ≡ place_of (entries files.now) name.now }
    ensures bound { result ≤ length files.now }
{
    for (i, file) in files.iter().enumerate() {
        if file.0.as_str() == name {
            return i;
        }
    }
    files.len()
}

/// Whether the call after so many calls is listed as one that fails.
pub(crate) fn is_next_failing(failing: &[u64], calls: u64) -> bool
    ensures { result ≡ is_next_failing failing.now calls }
{
    failing.contains(&calls.saturating_add(1))
}

impl MemShelf {
    /// Holds these names with their bytes; of equal names the first counts. `failing` lists the
    /// numbers of the calls that are to fail, counted from 1 over all names.
    pub fn new(alloc: Global, files: Vec<(String, Vec<u8>)>, failing: Vec<u64>) -> Self
        ensures { result ≡ record {
          files = entries files.items;
          failing = failing.items;
          calls = 0;
          faulted = [];
        } }
    {
        MemShelf {
            files,
            failing,
            calls: 0,
            faulted: Vec::new(alloc),
        }
    }
}

impl Shelf for MemShelf {
    ghost told = { λ s name. Some (held s.files name) };

    ghost faults = { fault_count };

    /// Beside what every shelf says: the exact answer but for want of memory, and the shelf after
    /// it.
    fn fetch(&mut self, alloc: Global, name: &str, limit: u64) -> Result<Vec<u8>, FetchFault>
        ensures bound { IfOk result (λ bytes. vec_len bytes ≤ limit) }
        ensures bytes { IfOk result (λ bytes.
            MayGive (Some (held self.old.files name.now)) bytes.items) }
        ensures too_long { result ≡ Err FetchFault.TooLong
            → MayBeTooLong (Some (held self.old.files name.now)) limit }
        ensures failed { result ≡ Err FetchFault.Failed
            → Rose (fault_count self.old name.now) (fault_count self.new name.now) }
        ensures later { (other : List ℕ) → fault_count self.old other ≤ fault_count self.new other }
        ensures unchanged { (other : List ℕ)
            → Some (held self.new.files other) ≡ Some (held self.old.files other) }

        ensures gives { IfOk result (λ bytes. Gives self.old name.now limit bytes.items) }
        ensures refuses { IfErr result (Refuses self.old name.now limit) }
        ensures after { self.new ≡ after_fetch self.old name.now result }
        ensures counted { result ≡ Err FetchFault.Failed
            → fault_count self.new name.now ≡ fault_count self.old name.now + 1 }
        ensures others { (other : List ℕ)
            → place_of self.old.files other ≢ place_of self.old.files name.now
            → fault_count self.new other ≡ fault_count self.old other }
    {
        let is_failing = is_next_failing(&self.failing, self.calls);
        self.calls = self.calls.saturating_add(1);
        let place = find_place(&self.files, name);
        if is_failing || place == self.files.len() {
            self.faulted.push(place)?;
            return Err(FetchFault::Failed);
        }
        copy_within(alloc, &self.files[place].1, limit)
    }
}
