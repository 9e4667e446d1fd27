ghost use Rattle.std.specs.Prelude.{◌≡◌, ◌<◌, ◌^◌, [], ◌∷◌, ◌++◌, length, is_some, if◌then◌else◌, All, IfOk};
ghost use Rattle.memory.specs.Answers.{Answers};
ghost use Rattle.model_ogg.specs.Pages.{IsPageOf};
ghost use Rattle.model_ogg.specs.Streams.{stream_of};
ghost use Rattle.model_ogg.specs.Entries.{lost, stream_items};
ghost use Rattle.ogg_packets.specs.Entries.{items_of, within_limit, EntryLiesBefore, LieBefore};

use crate::entry::Entry;
use crate::fault::EntryFault;
use crate::kept::KeptEntry;
use crate::list::EntryList;
use crate::page::{StreamState, read_page};
use crate::walk::StreamPages;
use memory::NoMemory;
use model_ogg::PageRef;
use std::alloc::Global;

/// Adds the entries of a stream, and says whether a packet is open at its end.
fn read_stream(
    alloc: Global,
    entries: &mut EntryList,
    bytes: &[u8],
    pages: &[PageRef],
    serial: u32,
) -> Result<bool, EntryFault>
    requires pages { All (IsPageOf bytes.now) pages.now }
    requires few { length bytes.now < 2 ^ 32 }
    requires none { entries.old.found.items ≡ [] }
    ensures limit { entries.new.limit ≡ entries.old.limit }
    ensures entries { IfOk result (λ is_open. items_of bytes.now entries.new.found.items
        ++ (if is_open then lost ∷ [] else [])
        ≡ stream_items bytes.now (stream_of serial pages.now)) }
    ensures lies { IfOk result (λ _.
        All (EntryLiesBefore (length bytes.now)) entries.new.found.items) }
    ensures too_many { result ≡ Err EntryFault.TooMany
        → entries.old.limit < length (stream_items bytes.now (stream_of serial pages.now)) }
{
    let mut state = StreamState::new();
    for page in StreamPages::new(pages, serial) {
        state = read_page(alloc, entries, bytes, page, state)?;
    }
    Ok(state.pending.is_some())
}

/// The entries of the stream of a serial number among these pages, up to and with its first last
/// page, if they are at most `limit`. The pages are pages of these bytes, in order; no byte is
/// copied.
///
/// # Errors
///
/// `TooMany` where there are more than `limit`; `Memory` where no memory was found for them.
pub fn kept_packets(
    alloc: Global,
    bytes: &[u8],
    pages: &[PageRef],
    serial: u32,
    limit: u32,
) -> Result<Vec<KeptEntry>, EntryFault>
    requires pages { All (IsPageOf bytes.now) pages.now }
    requires few { length bytes.now < 2 ^ 32 }
    ensures answers { Answers EntryFault.Memory (λ entries. items_of bytes.now entries.items) result
        (within_limit limit (stream_items bytes.now (stream_of serial pages.now))) }
    ensures within { IfOk result (λ entries.
        All (EntryLiesBefore (length bytes.now)) entries.items) }
{
    let mut entries = EntryList::new(alloc, limit);
    let is_open = read_stream(alloc, &mut entries, bytes, pages, serial)?;
    entries.add_loss(is_open)?;
    Ok(entries.into_entries())
}

/// Entries that are kept, unpacked.
fn unpacked(alloc: Global, kept: Vec<KeptEntry>) -> Result<Vec<Entry>, NoMemory>
    ensures { IfOk result (λ entries. entries.items ≡ kept.items) }
{
    let mut entries = Vec::with_capacity(alloc, kept.len())?;
    for entry in kept {
        entries.push(entry.into_entry(alloc))?;
    }
    Ok(entries)
}

/// What `kept_packets` gives, as entries that a program can take apart.
///
/// # Errors
///
/// `TooMany` where there are more than `limit`; `Memory` where no memory was found for them.
pub fn packets(
    alloc: Global,
    bytes: &[u8],
    pages: &[PageRef],
    serial: u32,
    limit: u32,
) -> Result<Vec<Entry>, EntryFault>
    requires pages { All (IsPageOf bytes.now) pages.now }
    requires few { length bytes.now < 2 ^ 32 }
    ensures answers { Answers EntryFault.Memory (λ entries. items_of bytes.now entries.items) result
        (within_limit limit (stream_items bytes.now (stream_of serial pages.now))) }
    ensures within { IfOk result (λ entries.
        All (EntryLiesBefore (length bytes.now)) entries.items) }
{
    let kept = kept_packets(alloc, bytes, pages, serial, limit)?;
    let entries = unpacked(alloc, kept)?;
    Ok(entries)
}
