ghost use Rattle.std.specs.Prelude.{◌≡◌, ◌≤◌, ◌<◌, [], ◌∷◌, ◌++◌, length, if◌then◌else◌, OnOk};
ghost use Rattle.ogg_packets.specs.declared.entry.Entry.TheVariants.{Lost};

use crate::fault::EntryFault;
use crate::kept::KeptEntry;
use std::alloc::Global;

/// The entries that are found so far. There are never more of them than a limit.
#[derive(Drop)]
pub struct EntryList {
    found: Vec<KeptEntry>,
    limit: u32,
    ghost few: { length found.items ≤ limit },
}

impl EntryList {
    /// The list without entries that takes so many.
    pub fn new(alloc: Global, limit: u32) -> Self
        ensures limit { result.limit ≡ limit }
        ensures none { result.found.items ≡ [] }
    {
        EntryList {
            found: Vec::new(alloc),
            limit,
        }
    }

    /// Adds an entry, where there are fewer than the limit.
    #[inline(always)]
    pub fn add(&mut self, entry: KeptEntry) -> Result<(), EntryFault>
        ensures limit { self.new.limit ≡ self.old.limit }
        ensures ok { OnOk result (self.new.found.items ≡ self.old.found.items ++ entry ∷ []) }
        ensures too_many { result ≡ Err EntryFault.TooMany
            → self.old.limit ≤ length self.old.found.items }
    {
        if self.found.len() >= self.limit as usize {
            return Err(EntryFault::TooMany);
        }
        self.found.push(entry)?;
        Ok(())
    }

    /// Adds a loss, where there is one.
    pub fn add_loss(&mut self, lost: bool) -> Result<(), EntryFault>
        ensures limit { self.new.limit ≡ self.old.limit }
        ensures ok { OnOk result (self.new.found.items
            ≡ self.old.found.items ++ (if lost then Lost ∷ [] else [])) }
        ensures too_many { result ≡ Err EntryFault.TooMany → self.old.limit
            < length (self.old.found.items ++ (if lost then Lost ∷ [] else [])) }
    {
        if lost {
            self.add(KeptEntry::lost())?;
        }
        Ok(())
    }

    /// The entries, given back.
    pub fn into_entries(self) -> Vec<KeptEntry>
        ensures { result.items ≡ self.found.items }
    {
        let EntryList { found, .. } = self;
        found
    }
}
