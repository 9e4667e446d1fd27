ghost use Rattle.std.specs.Prelude.{◌≡◌, ◌<◌, ◌≤◌, ℕ, Some, List, length, drop, All, IfOk, is_some, option_map};
ghost use Rattle.std.specs.Cow.{cow_slice_items};
ghost use Rattle.memory.specs.Answers.{Answers};
ghost use Rattle.ogg_packets.specs.Entries.{items_of, EntryLiesBefore};
ghost use Rattle.model_line.specs.LinkTests.{first_packet, headers_of};
ghost use Rattle.film_blocks.specs.Headers.{packets_in, heads_by, heads_of, FitHeads};

use head_packets::{comment, ident};
use memory::NoMemory;
use model_line::{FilmFault, MOST_CHANNELS};
use model_setup::{IdentFields, SetupFault};
use ogg_packets::KeptEntry;
use setup_header::Setup;
use std::alloc::Global;
use std::borrow::CowSlice;

/// The bytes of the three header packets of a stream.
#[derive(Drop)]
struct HeaderPackets<'a> {
    ident: CowSlice<'a, u8>,
    comment: CowSlice<'a, u8>,
    setup: CowSlice<'a, u8>,
}

/// What the headers of a link say.
#[derive(Drop)]
pub struct Heads {
    pub ident: IdentFields,
    pub setup: Setup,
}

/// The entries after so many.
pub fn after(entries: &[KeptEntry], count: usize) -> &[KeptEntry]
    ensures { result.now ≡ drop count entries.now }
{
    if count < entries.len() {
        &entries[count..]
    } else {
        &[]
    }
}

/// The bytes of the first entry, where it is a packet.
pub fn packet_bytes<'a>(
    alloc: Global,
    bytes: &'a [u8],
    entries: &[KeptEntry],
) -> Result<Option<CowSlice<'a, u8>>, NoMemory>
    requires { All (EntryLiesBefore (length bytes.now)) entries.now }
    ensures { IfOk result (λ packet. option_map cow_slice_items packet
        ≡ first_packet (items_of bytes.now entries.now)) }
{
    match entries {
        [entry, ..] => entry.bytes(alloc, bytes),
        [] => Ok(None),
    }
}

/// The header packets of a stream whose first three entries are packets.
fn header_packets<'a>(
    alloc: Global,
    bytes: &'a [u8],
    entries: &[KeptEntry],
) -> Result<Option<HeaderPackets<'a>>, NoMemory>
    requires { All (EntryLiesBefore (length bytes.now)) entries.now }
    ensures { IfOk result (λ packets. option_map packets_in packets
        ≡ headers_of (items_of bytes.now entries.now)) }
{
    let Some(ident) = packet_bytes(alloc, bytes, entries)? else {
        return Ok(None);
    };
    let Some(comment) = packet_bytes(alloc, bytes, after(entries, 1))? else {
        return Ok(None);
    };
    let Some(setup) = packet_bytes(alloc, bytes, after(entries, 2))? else {
        return Ok(None);
    };
    Ok(Some(HeaderPackets {
        ident,
        comment,
        setup,
    }))
}

/// What the headers of a link of this number say, or their first fault.
fn judge(
    alloc: Global,
    link: u32,
    ident_packet: &[u8],
    comment_packet: &[u8],
    setup_packet: &[u8],
) -> Result<Heads, FilmFault>
    ensures heads { Answers FilmFault.Memory (λ heads. (heads.ident, heads.setup)) result
        (heads_by link (Some (record {
          ident = ident_packet.now;
          comment = comment_packet.now;
          setup = setup_packet.now;
        }))) }
    ensures fit { IfOk result FitHeads }
{
    let fields = match ident(ident_packet) {
        Ok(fields) => fields,
        Err(cause) => return Err(FilmFault::Ident { link, cause }),
    };
    if fields.channels > MOST_CHANNELS {
        return Err(FilmFault::Channels {
            link,
            n: fields.channels,
        });
    }
    if let Err(cause) = comment(comment_packet) {
        return Err(FilmFault::Comment { link, cause });
    }
    match Setup::read(alloc, fields.channels, setup_packet) {
        Ok(setup) => Ok(Heads {
            ident: fields,
            setup,
        }),
        Err(SetupFault::Bad { cause, item }) => Err(FilmFault::Setup { link, cause, item }),
        Err(SetupFault::Memory) => Err(FilmFault::Memory),
    }
}

/// What the headers of a link of this number say, or their first fault.
pub fn read_heads(
    alloc: Global,
    bytes: &[u8],
    link: u32,
    entries: &[KeptEntry],
) -> Result<Heads, FilmFault>
    requires { All (EntryLiesBefore (length bytes.now)) entries.now }
    ensures heads { Answers FilmFault.Memory (λ heads. (heads.ident, heads.setup)) result
        (heads_of link (items_of bytes.now entries.now)) }
    ensures fit { IfOk result FitHeads }
{
    let packets = header_packets(alloc, bytes, entries)?;
    match packets {
        Some(
            HeaderPackets {
                ident,
                comment,
                setup,
            },
        ) => judge(
            alloc,
            link,
            ident.as_slice(),
            comment.as_slice(),
            setup.as_slice(),
        ),
        None => Err(FilmFault::HeadMissing { link }),
    }
}
