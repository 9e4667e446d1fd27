ghost use Rattle.std.specs.Prelude.{◌≡◌, ◌≤◌, ◌<◌, ◌+◌, ◌^◌, ℕ, length, map, take, IfOk, IfSome, OnOk};
ghost use Rattle.std.specs.List.{All};
ghost use Rattle.std.specs.Io.KnownBytes.{Appends};
ghost use Rattle.vf_outside.specs.Told.{AppendsPart};
ghost use Rattle.vf_outside.specs.Faults.{Rose};
ghost use Rattle.model_synthesis.specs.Tables.{AreTables};
ghost use Rattle.model_line.specs.PacketRows.{block_packets, rows_of};
ghost use Rattle.model_line.specs.Index.{Indexes};
ghost use Rattle.model_line.specs.Blocks.{left_half, right_half};
ghost use Rattle.model_block.specs.FilmBlocks.{film_block};
ghost use Rattle.model_film.specs.Links.{IsLink};
ghost use Rattle.model_film.specs.FilmLines.{film_line};
ghost use Rattle.model_film.specs.Dumps.{dump_of, line_bytes};
ghost use Rattle.film_dump.specs.Dumps.{FitsHalves, GoesOn, span_frames};
ghost use Rattle.film_dump.specs.Kept.{IsKept};

use crate::fault::DumpFault;
use crate::frames::write_frames;
use crate::kept::{Kept, decoded};
use crate::puts::{PUT_SIZE, put_waiting};
use film_blocks::{MOST_CHANNELS, Reel};
use film_index::{Item, Span};
use model_line::Half;
use std::alloc::Global;
use vf_outside::Sink;

/// Writes the frames of a span. Of its two blocks the first may be kept; the second is kept then.
fn write_span<K: Sink>(
    alloc: Global,
    reel: &Reel,
    span: &Span,
    kept: Option<Kept>,
    waiting: &mut Vec<u8>,
    sink: &mut K,
) -> Result<Kept, DumpFault>
    requires blocks { span.now.block + 1 < length (block_packets reel.now.film.links) }
    requires number { span.now.block + 1 < 2 ^ 32 }
    requires kept { IfSome kept (IsKept reel.now.constants reel.now.film.links) }
    requires fits { FitsHalves
        (right_half (film_block reel.now.constants reel.now.film.links span.now.block))
        (left_half (film_block reel.now.constants reel.now.film.links (span.now.block + 1)))
        span.now }
    ensures kept { IfOk result (IsKept reel.now.constants reel.now.film.links) }
    ensures step { GoesOn (K.written sink.old) (K.written sink.new)
        waiting.old.items waiting.new.items
        (span_frames
        (right_half (film_block reel.now.constants reel.now.film.links span.now.block))
        (left_half (film_block reel.now.constants reel.now.film.links (span.now.block + 1)))
        span.now) result }
    ensures failed { result ≡ Err DumpFault.Failed
        → Rose (K.faults sink.old) (K.faults sink.new) }
    ensures later { K.faults sink.old ≤ K.faults sink.new }
{
    let first = decoded(alloc, reel, kept, span.block)?;
    let right = first.block.half(alloc, Half::Right)?;
    let second = decoded(alloc, reel, Some(first), span.block + 1)?;
    let left = second.block.half(alloc, Half::Left)?;
    write_frames(&right, &left, span, waiting, sink)?;
    Ok(second)
}

/// Writes a film's line: the samples of its frames, 16 bits each, the lower byte first, frame after
/// frame and channel after channel. Gaps give nothing. Whole frames are put, of `PUT_SIZE` bytes
/// and at most a frame more; each block is decoded once.
///
/// # Errors
///
/// `Failed` only where the sink's count of faults rose in this call; a front of the bytes was
/// written then. `Memory` where memory ran out; the bytes of the first so many frames were written
/// then.
pub fn dump<K: Sink>(alloc: Global, reel: &Reel, sink: &mut K) -> Result<(), DumpFault>
    requires tables { AreTables reel.now.constants }
    requires links { All IsLink reel.now.film.links }
    requires index { Indexes (map rows_of reel.now.film.links) reel.now.film.index }
    ensures ok { OnOk result (Appends (K.written sink.old) (K.written sink.new)
        (dump_of reel.now.constants reel.now.film.links)) }
    ensures failed { result ≡ Err DumpFault.Failed
        → Rose (K.faults sink.old) (K.faults sink.new) }
    ensures part { result ≡ Err DumpFault.Failed
        → AppendsPart (K.written sink.old) (K.written sink.new)
        (dump_of reel.now.constants reel.now.film.links) }
    ensures memory { result ≡ Err DumpFault.Memory
        → (count : ℕ) × Appends (K.written sink.old) (K.written sink.new)
        (line_bytes (take count (film_line reel.now.constants reel.now.film.links))) }
    ensures later { K.faults sink.old ≤ K.faults sink.new }
{
    let mut waiting = Vec::with_capacity(alloc, PUT_SIZE + 2 * usize::from(MOST_CHANNELS))?;
    let mut kept = None;
    let items = reel.film.index().items();
    for item in items {
        if let Item::Span(span) = item {
            kept = Some(write_span(alloc, reel, span, kept, &mut waiting, sink)?);
        }
    }
    put_waiting(&mut waiting, sink)
}
