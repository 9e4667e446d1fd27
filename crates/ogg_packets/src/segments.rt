ghost use Rattle.std.specs.Prelude.{◌≡◌, ◌+◌, ◌<◌, ◌≤◌, ◌^◌, ℕ, List, [], ◌∷◌, ◌++◌, length, sum, take, drop, nat_lt, true, if◌then◌else◌, All, None, OnOk, IfOk};
ghost use Rattle.std.specs.Bool.{OnTrue};
ghost use Rattle.std.specs.List.{list_any};
ghost use Rattle.model_ogg.specs.Entries.{with_segment, segments, packets_ended, packet_ended, one_pending, left_pending};
ghost use Rattle.ogg_packets.specs.Pieces.{joined, LiesBefore};
ghost use Rattle.ogg_packets.specs.Entries.{items_of, pending_of, whole, PendingLiesBefore, LieBefore};

use crate::fault::EntryFault;
use crate::kept::KeptEntry;
use crate::list::EntryList;
use crate::pieces::{Piece, Pieces};
use memory::NoMemory;
use model_ogg::Mark;
use std::alloc::Global;

/// Whether one of the lacing values ends a packet.
fn any_ends(laces: &[u8]) -> bool
    ensures { result ≡ list_any (λ n. nat_lt n 255) laces.now }
{
    laces.iter().any(|lace| *lace < 255)
}

/// The mark of a packet, where none of the lacing values after its end ends another.
fn mark_before(laces: &[u8], mark: Option<Mark>) -> Option<Mark>
    ensures { result ≡ (if list_any (λ n. nat_lt n 255) laces.now then None else mark) }
{
    if any_ends(laces) { None } else { mark }
}

/// The open packet, or a new one, with one segment more.
fn with_piece(
    alloc: Global,
    pending: Option<Pieces>,
    place: u64,
    lace: u8,
) -> Result<Pieces, NoMemory>
    ensures bytes { IfOk result (λ pieces. (bytes : List ℕ)
        → joined bytes pieces
        ≡ with_segment (pending_of bytes pending) (take lace (drop place bytes))) }
    ensures lies { IfOk result (λ pieces. (end : ℕ) → place + lace ≤ end
        → PendingLiesBefore end pending → All (LiesBefore end) pieces) }
{
    let piece = Piece {
        place,
        len: u32::from(lace),
    };
    match pending {
        Some(mut pieces) => {
            pieces.add(piece)?;
            Ok(pieces)
        }
        None => Ok(Pieces::one(alloc, piece)),
    }
}

/// Adds one segment to the open packet, and the packet to the entries where it ends with it.
fn join_segment(
    alloc: Global,
    entries: &mut EntryList,
    place: u64,
    lace: u8,
    mark: Option<Mark>,
    pending: Option<Pieces>,
) -> Result<Option<Pieces>, EntryFault>
    ensures limit { entries.new.limit ≡ entries.old.limit }
    ensures entries { OnOk result ((bytes : List ℕ)
        → items_of bytes entries.new.found.items ≡ items_of bytes entries.old.found.items
        ++ packet_ended mark (pending_of bytes pending) (lace, take lace (drop place bytes))) }
    ensures pending { IfOk result (λ left. (bytes : List ℕ) → pending_of bytes left
        ≡ one_pending (pending_of bytes pending) (lace, take lace (drop place bytes))) }
    ensures lies { IfOk result (λ left. (end : ℕ) → place + lace ≤ end
        → LieBefore end entries.old.found.items pending
        → LieBefore end entries.new.found.items left) }
    ensures too_many { result ≡ Err EntryFault.TooMany → (bytes : List ℕ) → entries.old.limit
        < length (items_of bytes entries.old.found.items
        ++ packet_ended mark (pending_of bytes pending) (lace, take lace (drop place bytes))) }
{
    let pieces = with_piece(alloc, pending, place, lace)?;
    if lace < 255 {
        let entry = KeptEntry::packet(alloc, pieces, mark)?;
        entries.add(entry)?;
        Ok(None)
    } else {
        Ok(Some(pieces))
    }
}

/// Adds the packet of one piece, without a mark. Nearly all begin below 2^32, and are written apart
/// from the others, since an entry of one kind or another is made in memory and copied from there.
#[inline(always)]
fn add_whole(alloc: Global, entries: &mut EntryList, place: u64, len: u32) -> Result<(), EntryFault>
    ensures limit { entries.new.limit ≡ entries.old.limit }
    ensures ok { OnOk result (entries.new.found.items
        ≡ entries.old.found.items ++ whole place len None ∷ []) }
    ensures too_many { result ≡ Err EntryFault.TooMany
        → entries.old.limit ≤ length entries.old.found.items }
{
    if place <= u64::from(u32::MAX) {
        entries.add(KeptEntry::unmarked(place as u32, len))?;
    } else {
        let pieces = Pieces::one(alloc, Piece { place, len });
        entries.add(KeptEntry::packet(alloc, pieces, None)?)?;
    }
    Ok(())
}

/// Adds the packet of one segment, without a mark.
#[inline(always)]
fn add_short(alloc: Global, entries: &mut EntryList, place: u64, lace: u8) -> Result<(), EntryFault>
    requires { lace < 255 }
    ensures limit { entries.new.limit ≡ entries.old.limit }
    ensures entries { OnOk result ((bytes : List ℕ)
        → items_of bytes entries.new.found.items ≡ items_of bytes entries.old.found.items
        ++ packet_ended None None (lace, take lace (drop place bytes))) }
    ensures lies { OnOk result ((end : ℕ) → place + lace ≤ end
        → LieBefore end entries.old.found.items None
        → LieBefore end entries.new.found.items None) }
    ensures too_many { result ≡ Err EntryFault.TooMany → (bytes : List ℕ) → entries.old.limit
        < length (items_of bytes entries.old.found.items
        ++ packet_ended None None (lace, take lace (drop place bytes))) }
{
    add_whole(alloc, entries, place, u32::from(lace))?;
    Ok(())
}

/// Whether a segment is a whole packet without a mark: no packet is open, the lacing value ends
/// one, and one of those behind it ends another.
#[inline(always)]
fn is_short(pending: &Option<Pieces>, lace: u8, behind: &[u8]) -> bool
    ensures { OnTrue result ((pending.now ≡ None) × (lace < 255)
        × (list_any (λ n. nat_lt n 255) behind.now ≡ true)) }
{
    pending.is_none() && lace < 255 && any_ends(behind)
}

/// Adds the packets that end in the segments from a place on, and gives the one that stays open.
pub fn join_segments(
    alloc: Global,
    entries: &mut EntryList,
    laces: &[u8],
    place: u64,
    mark: Option<Mark>,
    pending: Option<Pieces>,
) -> Result<Option<Pieces>, EntryFault>
    requires { place + sum laces.now < 2 ^ 63 }
    ensures limit { entries.new.limit ≡ entries.old.limit }
    ensures entries { OnOk result ((bytes : List ℕ)
        → items_of bytes entries.new.found.items ≡ items_of bytes entries.old.found.items
        ++ packets_ended mark (pending_of bytes pending)
        (segments laces.now (drop place bytes))) }
    ensures pending { IfOk result (λ left. (bytes : List ℕ) → pending_of bytes left
        ≡ left_pending (pending_of bytes pending) (segments laces.now (drop place bytes))) }
    ensures lies { IfOk result (λ left. (end : ℕ) → place + sum laces.now ≤ end
        → LieBefore end entries.old.found.items pending
        → LieBefore end entries.new.found.items left) }
    ensures too_many { result ≡ Err EntryFault.TooMany → (bytes : List ℕ) → entries.old.limit
        < length (items_of bytes entries.old.found.items
        ++ packets_ended mark (pending_of bytes pending)
        (segments laces.now (drop place bytes))) }
{
    let mut pending = pending;
    let mut at = place;
    for (i, lace) in laces.iter().enumerate() {
        if is_short(&pending, *lace, &laces[i + 1..]) {
            add_short(alloc, entries, at, *lace)?;
        } else {
            let packet_mark = mark_before(&laces[i + 1..], mark);
            pending = join_segment(alloc, entries, at, *lace, packet_mark, pending)?;
        }
        at += u64::from(*lace);
    }
    Ok(pending)
}
