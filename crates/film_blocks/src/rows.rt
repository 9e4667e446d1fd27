ghost use Rattle.std.specs.Prelude.{◌≡◌, ◌≤◌, length, map, All, IfOk};
ghost use Rattle.ogg_packets.specs.Entries.{front_in, items_of, EntryLiesBefore};
ghost use Rattle.model_line.specs.PacketRows.{kind_by_head, row_of};
ghost use Rattle.film_blocks.specs.Fronts.{kind_by_front};

use memory::NoMemory;
use model_line::{Row, RowKind, Rows};
use ogg_packets::{Front, KeptEntry};
use setup_header::{PacketHead, head};
use std::alloc::Global;

/// What a packet is for the line, by its head.
fn kind_by(head: PacketHead, long_flags: &[bool]) -> RowKind
    ensures { result ≡ kind_by_head long_flags.now head }
{
    match head {
        PacketHead::Skip => RowKind::Skip,
        PacketHead::Bad => RowKind::Bad,
        PacketHead::Block { mode, .. } => RowKind::Block {
            long: long_flags.get(usize::from(mode)).copied().unwrap_or(false),
        },
    }
}

/// The front of each entry's packet, in order. Nothing else is done here, so that many of the
/// first bytes can be on their way from memory at once.
fn fronts(
    alloc: Global,
    bytes: &[u8],
    entries: &[KeptEntry],
) -> Result<Vec<Option<Front>>, NoMemory>
    requires { All (EntryLiesBefore (length bytes.now)) entries.now }
    ensures { IfOk result (λ fronts. fronts.items ≡ map (front_in bytes.now) entries.now) }
{
    let mut fronts = Vec::with_capacity(alloc, entries.len())?;
    for entry in entries {
        fronts.push(entry.front(alloc, bytes)?)?;
    }
    Ok(fronts)
}

/// What an entry is for the line, by the front of its packet.
fn front_kind(front: &Option<Front>, long_flags: &[bool]) -> RowKind
    requires some { 1 ≤ length long_flags.now }
    requires few { length long_flags.now ≤ 64 }
    ensures { result ≡ kind_by_front long_flags.now front.now }
{
    match front {
        Some(front) => kind_by(head(long_flags, front.as_slice()), long_flags),
        None => RowKind::Lost,
    }
}

/// The rows of entries, in order, where the modes have these block flags. No packet is copied that
/// lies in one piece.
pub fn rows(
    alloc: Global,
    bytes: &[u8],
    long_flags: &[bool],
    entries: &[KeptEntry],
) -> Result<Rows, NoMemory>
    requires some { 1 ≤ length long_flags.now }
    requires few { length long_flags.now ≤ 64 }
    requires lies { All (EntryLiesBefore (length bytes.now)) entries.now }
    ensures { IfOk result (λ rows. rows
        ≡ map (row_of long_flags.now) (items_of bytes.now entries.now)) }
{
    let fronts = fronts(alloc, bytes, entries)?;
    let mut rows = Rows::with_capacity(alloc, entries.len())?;
    for (i, entry) in entries.iter().enumerate() {
        rows.push(Row {
            kind: front_kind(&fronts[i], long_flags),
            mark: entry.mark(),
        })?;
    }
    Ok(rows)
}
