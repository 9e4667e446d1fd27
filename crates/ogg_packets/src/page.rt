ghost use Rattle.std.specs.Prelude.{◌≡◌, ◌+◌, ◌<◌, ◌≤◌, ◌^◌, ℕ, List, [], ◌∷◌, ◌++◌, length, sum, take, drop, if◌then◌else◌, None, Some, OnOk, IfOk};
ghost use Rattle.model_ogg.specs.Pages.{IsPageOf};
ghost use Rattle.model_ogg.specs.Entries.{segments, segments_of, after_end, is_missing, loses, forgets, has_orphan, mark_of, page_items, page_pending, next_sequence};
ghost use Rattle.ogg_packets.specs.Entries.{items_of, pending_of, LieBefore};

use crate::fault::EntryFault;
use crate::list::EntryList;
use crate::pieces::Pieces;
use crate::segments::join_segments;
use model_ogg::{Mark, PageRef};
use ogg_pages::{laces, segment_place};
use std::alloc::Global;

/// Where the reading of a stream stands between two of its pages.
#[derive(Drop)]
pub struct StreamState {
    /// The sequence number that is expected, once there was a page.
    pub expected: Option<u32>,
    /// The packet that is open, if one is.
    pub pending: Option<Pieces>,
}

impl StreamState {
    /// Before the first page of a stream.
    pub fn new() -> Self
        ensures expected { result.expected ≡ None }
        ensures pending { result.pending ≡ None }
    {
        StreamState {
            expected: None,
            pending: None,
        }
    }
}

/// Whether pages are missing before this one (rule 1).
fn is_missing(page: &PageRef, expected: Option<u32>) -> bool
    ensures { result ≡ is_missing expected page.now }
{
    match expected {
        Some(sequence) => page.sequence != sequence,
        None => false,
    }
}

/// Whether the page makes a loss: pages are missing before it, or it has segments, and what it says
/// of going on with a packet is not what is open (rules 1 to 3).
fn loses(page: &PageRef, expected: Option<u32>, has_pending: bool, has_segments: bool) -> bool
    ensures { result ≡ loses expected has_pending page.now has_segments }
{
    is_missing(page, expected) || (has_segments && page.is_continued() != has_pending)
}

/// Whether the page drops the open packet (rules 1 and 3).
fn forgets(page: &PageRef, expected: Option<u32>, has_segments: bool) -> bool
    ensures { result ≡ forgets expected page.now has_segments }
{
    is_missing(page, expected) || (has_segments && !page.is_continued())
}

/// Whether the page goes on with a packet whose front is lost (rule 4).
fn has_orphan(page: &PageRef, has_pending: bool) -> bool
    ensures { result ≡ has_orphan page.now has_pending }
{
    page.is_continued() && !has_pending
}

/// How many lacing values there are up to and with the first that ends a packet.
fn end_of_first(laces: &[u8]) -> usize
    ensures bound { result ≤ length laces.now }
    ensures after { (body : List ℕ)
        → after_end (segments laces.now body)
        ≡ segments (drop result laces.now) (drop (sum (take result laces.now)) body) }
{
    for (i, lace) in laces.iter().enumerate() {
        if *lace < 255 {
            return i + 1;
        }
    }
    laces.len()
}

/// How many lacing values belong to a packet whose front is lost.
fn skipped(laces: &[u8], orphan: bool) -> usize
    ensures bound { result ≤ length laces.now }
    ensures after { (body : List ℕ)
        → (if orphan then after_end (segments laces.now body) else segments laces.now body)
        ≡ segments (drop result laces.now) (drop (sum (take result laces.now)) body) }
{
    if orphan { end_of_first(laces) } else { 0 }
}

/// The page's granule position with its last-page flag.
fn mark_of(page: &PageRef) -> Option<Mark>
    ensures { result ≡ mark_of page.now }
{
    let last = page.is_last();
    page.granule.map(|granule| Mark { granule, last })
}

/// The open packet, unless it is dropped.
fn kept(pending: Option<Pieces>, dropped: bool) -> Option<Pieces>
    ensures { result ≡ (if dropped then None else pending) }
{
    if dropped { None } else { pending }
}

/// Adds what one page adds, and gives where the reading of the stream stands behind it (rules 1 to
/// 6).
pub fn read_page(
    alloc: Global,
    entries: &mut EntryList,
    bytes: &[u8],
    page: &PageRef,
    before: StreamState,
) -> Result<StreamState, EntryFault>
    requires page { IsPageOf bytes.now page.now }
    requires few { length bytes.now < 2 ^ 32 }
    ensures limit { entries.new.limit ≡ entries.old.limit }
    ensures entries { OnOk result (items_of bytes.now entries.new.found.items
        ≡ items_of bytes.now entries.old.found.items
        ++ page_items before.expected (pending_of bytes.now before.pending) page.now
        (segments_of bytes.now page.now)) }
    ensures expected { IfOk result (λ after. after.expected ≡ Some (next_sequence page.now)) }
    ensures pending { IfOk result (λ after. pending_of bytes.now after.pending
        ≡ page_pending before.expected (pending_of bytes.now before.pending) page.now
        (segments_of bytes.now page.now)) }
    ensures lies { IfOk result (λ after.
        LieBefore (length bytes.now) entries.old.found.items before.pending
        → LieBefore (length bytes.now) entries.new.found.items after.pending) }
    ensures too_many { result ≡ Err EntryFault.TooMany → entries.old.limit
        < length (items_of bytes.now entries.old.found.items
        ++ page_items before.expected (pending_of bytes.now before.pending) page.now
        (segments_of bytes.now page.now)) }
{
    let StreamState { expected, pending } = before;
    let laces = laces(bytes, page);
    let has_segments = !laces.is_empty();
    let lost = loses(page, expected, pending.is_some(), has_segments);
    entries.add_loss(lost)?;
    let kept = kept(pending, forgets(page, expected, has_segments));
    let front = skipped(laces, has_orphan(page, kept.is_some()));
    let place = segment_place(bytes, page, front);
    let left = join_segments(alloc, entries, &laces[front..], place, mark_of(page), kept)?;
    Ok(StreamState {
        expected: Some(page.sequence.wrapping_add(1)),
        pending: left,
    })
}
