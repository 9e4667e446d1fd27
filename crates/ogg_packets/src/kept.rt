ghost use Rattle.std.specs.Prelude.{◌≡◌, ◌+◌, ◌≤◌, length, take, IfOk, IfSome, option_map};
ghost use Rattle.std.specs.Cow.{cow_slice_items};
ghost use Rattle.ogg_packets.specs.Pieces.{bytes_of};
ghost use Rattle.ogg_packets.specs.Entries.{front_in, is_packet_entry, mark_in, packet_in, whole, EntryLiesBefore};
ghost use Rattle.ogg_packets.specs.Kept.{entry_in};

use crate::entry::Entry;
use crate::front::Front;
use crate::join::joined;
use crate::pieces::{Piece, Pieces};
use memory::NoMemory;
use model_ogg::Mark;
use std::alloc::Global;
use std::borrow::CowSlice;
use std::marker::Model;

/// An entry in less memory than `Entry` takes, since a long film has many. Contracts see the entry.
#[derive(Drop)]
pub struct KeptEntry {
    packed: Packed,
}

/// An entry by what nearly every packet needs: it lies in one piece, which begins below 2^32.
#[derive(Drop)]
enum Packed {
    Lost,
    Whole { place: u32, len: u32 },
    Marked { place: u32, len: u32, granule: u64 },
    Last { place: u32, len: u32, granule: u64 },
    Other(Box<Entry>),
}

impl Model for KeptEntry {
    ghost use Rattle.ogg_packets.specs.declared.entry.Entry.{Entry};

    ghost Value = { Entry };

    ghost use Rattle.ogg_packets.specs.Kept.{entry_in};

    ghost view = { λ k. entry_in k.packed };
}

/// A packet of one piece.
fn whole_packet(place: u32, len: u32, mark: Option<Mark>) -> Packed
    ensures { entry_in result ≡ whole place len mark }
{
    match mark {
        None => Packed::Whole { place, len },
        Some(Mark { granule, last }) => {
            if last {
                Packed::Last {
                    place,
                    len,
                    granule,
                }
            } else {
                Packed::Marked {
                    place,
                    len,
                    granule,
                }
            }
        }
    }
}

/// A packet of these pieces, where there is one, which begins below 2^32.
fn packed_pieces(pieces: &Pieces, mark: Option<Mark>) -> Option<Packed>
    ensures { IfSome result (λ small. entry_in small ≡ Entry.Packet pieces.now mark) }
{
    match pieces.items() {
        [only] => {
            let place = u32::try_from(only.place).ok()?;
            Some(whole_packet(place, only.len, mark))
        }
        _ => None,
    }
}

/// The packet of one piece.
fn packet(alloc: Global, place: u32, len: u32, mark: Option<Mark>) -> Entry
    ensures { result ≡ whole place len mark }
{
    let piece = Piece {
        place: u64::from(place),
        len,
    };
    Entry::Packet {
        pieces: Pieces::one(alloc, piece),
        mark,
    }
}

/// The bytes of a packet of one piece, where they stand.
fn piece_bytes(bytes: &[u8], place: u32, len: u32) -> &[u8]
    requires { place + len ≤ length bytes.now }
    ensures { result.now ≡ bytes_of bytes.now (record { place = place; len = len }) }
{
    let start = place as usize;
    &bytes[start..start + len as usize]
}

/// The bytes of a packet of one piece, lent.
fn lent<'a>(bytes: &'a [u8], place: u32, len: u32) -> CowSlice<'a, u8>
    requires { place + len ≤ length bytes.now }
    ensures { cow_slice_items result ≡ bytes_of bytes.now (record { place = place; len = len }) }
{
    CowSlice::Borrowed(piece_bytes(bytes, place, len))
}

/// The front of a packet of one piece.
fn piece_front(bytes: &[u8], place: u32, len: u32) -> Front
    requires { place + len ≤ length bytes.now }
    ensures { result ≡ take 2 (bytes_of bytes.now (record { place = place; len = len })) }
{
    Front::of(piece_bytes(bytes, place, len))
}

/// The bytes of an entry, joined, if it is a packet.
fn joined_packet<'a>(
    alloc: Global,
    bytes: &'a [u8],
    entry: &Entry,
) -> Result<Option<CowSlice<'a, u8>>, NoMemory>
    requires { EntryLiesBefore (length bytes.now) entry.now }
    ensures { IfOk result (λ packet. option_map cow_slice_items packet
        ≡ packet_in bytes.now entry.now) }
{
    match entry {
        Entry::Packet { pieces, .. } => {
            let packet = joined(alloc, bytes, pieces)?;
            Ok(Some(CowSlice::Owned(packet)))
        }
        Entry::Lost => Ok(None),
    }
}

/// The front of an entry's packet, which is joined for it, if it is a packet.
fn joined_front(alloc: Global, bytes: &[u8], entry: &Entry) -> Result<Option<Front>, NoMemory>
    requires { EntryLiesBefore (length bytes.now) entry.now }
    ensures { IfOk result (λ front. front ≡ front_in bytes.now entry.now) }
{
    match joined_packet(alloc, bytes, entry)? {
        Some(packet) => Ok(Some(Front::of(packet.as_slice()))),
        None => Ok(None),
    }
}

impl KeptEntry {
    /// A loss.
    pub fn lost() -> KeptEntry
        ensures { result ≡ Entry.Lost }
    {
        KeptEntry {
            packed: Packed::Lost,
        }
    }

    /// A packet of one piece, without a mark. It takes no memory.
    #[inline(always)]
    pub fn unmarked(place: u32, len: u32) -> KeptEntry
        ensures { result ≡ whole place len None }
    {
        KeptEntry {
            packed: Packed::Whole { place, len },
        }
    }

    /// The packet of these pieces, with its mark. It takes memory only where there are several.
    pub fn packet(alloc: Global, pieces: Pieces, mark: Option<Mark>) -> Result<KeptEntry, NoMemory>
        ensures { IfOk result (λ kept. kept ≡ Entry.Packet pieces mark) }
    {
        let packed = match packed_pieces(&pieces, mark) {
            Some(packed) => packed,
            None => Packed::Other(Box::new(alloc, Entry::Packet { pieces, mark })?),
        };
        Ok(KeptEntry { packed })
    }

    /// The entry, unpacked. It takes no memory.
    pub fn into_entry(self, alloc: Global) -> Entry
        ensures { result ≡ self }
    {
        let KeptEntry { packed } = self;
        match packed {
            Packed::Lost => Entry::Lost,
            Packed::Whole { place, len } => packet(alloc, place, len, None),
            Packed::Marked {
                place,
                len,
                granule,
            } => {
                let mark = Mark {
                    granule,
                    last: false,
                };
                packet(alloc, place, len, Some(mark))
            }
            Packed::Last {
                place,
                len,
                granule,
            } => {
                let mark = Mark {
                    granule,
                    last: true,
                };
                packet(alloc, place, len, Some(mark))
            }
            Packed::Other(entry) => Box::into_inner(entry),
        }
    }

    /// Whether the entry is a packet.
    pub fn is_packet(&self) -> bool
        ensures { result ≡ is_packet_entry self.now }
    {
        match &self.packed {
            Packed::Lost => false,
            Packed::Whole { .. } | Packed::Marked { .. } | Packed::Last { .. } => true,
            Packed::Other(entry) => matches!(**entry, Entry::Packet { .. }),
        }
    }

    /// The mark of a packet, if it has one.
    #[inline(always)]
    pub fn mark(&self) -> Option<Mark>
        ensures { result ≡ mark_in self.now }
    {
        match &self.packed {
            Packed::Lost | Packed::Whole { .. } => None,
            Packed::Marked { granule, .. } => Some(Mark {
                granule: *granule,
                last: false,
            }),
            Packed::Last { granule, .. } => Some(Mark {
                granule: *granule,
                last: true,
            }),
            Packed::Other(entry) => match &**entry {
                Entry::Packet { mark, .. } => *mark,
                Entry::Lost => None,
            },
        }
    }

    /// The bytes of the entry, if it is a packet. Nearly every packet lies in one piece, and is
    /// lent where it stands.
    #[inline(always)]
    pub fn bytes<'a>(
        &self,
        alloc: Global,
        bytes: &'a [u8],
    ) -> Result<Option<CowSlice<'a, u8>>, NoMemory>
        requires { EntryLiesBefore (length bytes.now) self.now }
        ensures { IfOk result (λ packet. option_map cow_slice_items packet
            ≡ packet_in bytes.now self.now) }
    {
        match &self.packed {
            Packed::Lost => Ok(None),
            Packed::Whole { place, len } => Ok(Some(lent(bytes, *place, *len))),
            Packed::Marked { place, len, .. } => Ok(Some(lent(bytes, *place, *len))),
            Packed::Last { place, len, .. } => Ok(Some(lent(bytes, *place, *len))),
            Packed::Other(entry) => joined_packet(alloc, bytes, entry),
        }
    }

    /// The front of the entry's packet, if it is a packet. Memory is taken only where the packet
    /// lies in several pieces.
    #[inline(always)]
    pub fn front(&self, alloc: Global, bytes: &[u8]) -> Result<Option<Front>, NoMemory>
        requires { EntryLiesBefore (length bytes.now) self.now }
        ensures { IfOk result (λ front. front ≡ front_in bytes.now self.now) }
    {
        match &self.packed {
            Packed::Lost => Ok(None),
            Packed::Whole { place, len } => Ok(Some(piece_front(bytes, *place, *len))),
            Packed::Marked { place, len, .. } => Ok(Some(piece_front(bytes, *place, *len))),
            Packed::Last { place, len, .. } => Ok(Some(piece_front(bytes, *place, *len))),
            Packed::Other(entry) => joined_front(alloc, bytes, entry),
        }
    }
}
