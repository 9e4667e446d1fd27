ghost use Rattle.std.specs.Prelude.{◌≡◌, ◌+◌, ◌<◌, ◌≤◌, ◌^◌, ℕ, List, length, drop, count_by, All, IfOk};
ghost use Rattle.memory.specs.Answers.{Answers};
ghost use Rattle.model_ogg.specs.Pages.{IsPageOf};
ghost use Rattle.model_ogg.specs.Streams.{stream_of};
ghost use Rattle.model_ogg.specs.Entries.{stream_items};
ghost use Rattle.model_ogg.specs.Links.{LiesAmong, played_pages};
ghost use Rattle.ogg_packets.specs.Entries.{is_packet_entry, items_of, EntryLiesBefore};
ghost use Rattle.model_ogg.specs.declared.link.TheConstants.{MOST_LINKS};
ghost use Rattle.model_line.specs.declared.row.TheConstants.{MOST_ENTRIES};
ghost use Rattle.model_line.specs.Acceptance.{counts_of, link_of, links_of};
ghost use Rattle.model_line.specs.PacketRows.{rows_by};
ghost use Rattle.film_index.specs.Bounds.{FitsIndex};
ghost use Rattle.model_block.specs.FilmBlocks.{sizes_in};
ghost use Rattle.film_blocks.specs.Headers.{FitHeads};
ghost use Rattle.film_blocks.specs.Held.{link_in, links_in};
ghost use Rattle.film_blocks.specs.Reads.{IsRead, AreRead};

use crate::headers::{Heads, after, read_heads};
use crate::held::HeldLink;
use crate::places::{HEADER_COUNT, block_places};
use crate::rows::rows;
use block_decoding::BlockSizes;
use chain_links::{LinkPages, pages_in};
use memory::NoMemory;
use model_line::{FilmFault, LinkCounts, LinkRows, MOST_ENTRIES};
use ogg_packets::{EntryFault, KeptEntry, PageRef, kept_packets, stream_len};
use std::alloc::Global;

/// A link as it is kept, and its rows, of which the index is made.
#[derive(Drop)]
pub struct ReadLink {
    pub held: HeldLink,
    pub rows: LinkRows,
}

/// Links as they are kept, and the rows of each.
#[derive(Drop)]
pub struct ReadLinks {
    pub held: Vec<HeldLink>,
    pub rows: Vec<LinkRows>,
}

/// How many of the entries are packets.
fn packet_count(entries: &[KeptEntry]) -> usize
    ensures { result ≡ count_by is_packet_entry entries.now }
{
    entries.iter().filter(|entry| entry.is_packet()).count()
}

/// The numbers of a link's stream.
#[tactic(auto, using(crate::proofs::Counts::entry_laws))]
fn counts_of(serial: u32, pages: &[PageRef], entries: &[KeptEntry]) -> LinkCounts
    requires pages { length pages.now < 2 ^ 32 }
    requires entries { length entries.now < 2 ^ 32 }
    ensures { (bytes : List ℕ)
        → result ≡ counts_of serial (stream_of serial pages.now) (items_of bytes entries.now) }
{
    let packets = packet_count(entries);
    let lost = entries.len() - packets;
    LinkCounts {
        serial,
        pages: stream_len(pages, serial) as u32,
        packets: packets as u32,
        lost: lost as u32,
    }
}

/// The rows of a link whose headers say this.
fn link_rows(
    alloc: Global,
    bytes: &[u8],
    heads: &Heads,
    entries: &[KeptEntry],
) -> Result<LinkRows, NoMemory>
    requires lies { All (EntryLiesBefore (length bytes.now)) entries.now }
    requires fit { FitHeads heads.now }
    ensures { IfOk result (λ rows. rows
        ≡ rows_by heads.now.ident heads.now.setup (drop 3 (items_of bytes.now entries.now))) }
{
    let rows = rows(alloc, bytes, heads.setup.long_flags(), after(entries, 3))?;
    Ok(LinkRows {
        channels: heads.ident.channels,
        rate: heads.ident.rate,
        short: heads.ident.short,
        long: heads.ident.long,
        rows,
    })
}

/// The sizes of a link's blocks.
fn block_sizes(heads: &Heads) -> BlockSizes
    ensures { result ≡ sizes_in heads.now.ident }
{
    BlockSizes {
        short: heads.ident.short,
        long: heads.ident.long,
    }
}

/// Reads a link of this number, where so many entries may still come.
fn read_link(
    alloc: Global,
    bytes: &[u8],
    pages: &[PageRef],
    number: u32,
    link: &LinkPages,
    left: u32,
) -> Result<ReadLink, FilmFault>
    requires pages { All (IsPageOf bytes.now) pages.now }
    requires few { length bytes.now < 2 ^ 32 }
    requires count { length pages.now < 2 ^ 32 }
    requires within { LiesAmong (length pages.now) link.now }
    ensures link { Answers FilmFault.Memory (λ read. link_in bytes.now read.held) result
        (link_of number left link.now.serial (played_pages pages.now link.now)
        (stream_items bytes.now (played_pages pages.now link.now))) }
    ensures read { IfOk result (λ read. IsRead bytes.now read.held read.rows) }
    ensures count { IfOk result (λ read. length read.held.entries.items
        ≡ length (stream_items bytes.now (played_pages pages.now link.now))) }
    ensures left { IfOk result (λ read. length read.held.entries.items ≤ left) }
{
    let pages = pages_in(pages, link);
    let entries = match kept_packets(alloc, bytes, pages, link.serial, left) {
        Ok(entries) => entries,
        Err(EntryFault::TooMany) => return Err(FilmFault::TooManyPackets),
        Err(EntryFault::Memory) => return Err(FilmFault::Memory),
    };
    let heads = read_heads(alloc, bytes, number, &entries)?;
    let rows = link_rows(alloc, bytes, &heads, &entries)?;
    let blocks = block_places(alloc, &rows.rows, HEADER_COUNT)?;
    let counts = counts_of(link.serial, pages, &entries);
    Ok(ReadLink {
        held: HeldLink {
            counts,
            channels: heads.ident.channels,
            sizes: block_sizes(&heads),
            entries,
            blocks,
        },
        rows,
    })
}

/// Reads the links of a film, in order.
pub fn read_links(
    alloc: Global,
    bytes: &[u8],
    pages: &[PageRef],
    links: &[LinkPages],
) -> Result<ReadLinks, FilmFault>
    requires pages { All (IsPageOf bytes.now) pages.now }
    requires few { length bytes.now < 2 ^ 32 }
    requires count { length pages.now < 2 ^ 32 }
    requires links { length links.now ≤ MOST_LINKS }
    requires within { All (LiesAmong (length pages.now)) links.now }
    ensures links { Answers FilmFault.Memory (λ read. links_in bytes.now read.held.items) result
        (links_of bytes.now pages.now 0 MOST_ENTRIES links.now) }
    ensures read { IfOk result (λ read. AreRead bytes.now read.held.items read.rows.items) }
    ensures fits { IfOk result (λ read. FitsIndex read.rows.items) }
{
    let mut held = Vec::with_capacity(alloc, links.len())?;
    let mut rows = Vec::with_capacity(alloc, links.len())?;
    let mut left = MOST_ENTRIES;
    for (i, link) in links.iter().enumerate() {
        let read = read_link(alloc, bytes, pages, i as u32, link, left)?;
        left -= read.held.entries.len() as u32;
        held.push(read.held)?;
        rows.push(read.rows)?;
    }
    Ok(ReadLinks { held, rows })
}
