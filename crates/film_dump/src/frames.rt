ghost use Rattle.std.specs.Prelude.{◌≡◌, ◌≤◌, ◌<◌, ◌*◌, ◌++◌, length, OnOk};
ghost use Rattle.vf_outside.specs.Faults.{Rose};
ghost use Rattle.model_line.specs.Origins.{overlap_len};
ghost use Rattle.model_line.specs.Blocks.{len_of, overlap_frame, IsHalfBlock};
ghost use Rattle.model_line.specs.FrameBytes.{frame_bytes};
ghost use Rattle.film_dump.specs.Dumps.{FitsHalves, GoesOn, span_frames};

use crate::fault::DumpFault;
use crate::puts::put_many;
use film_index::Span;
use lap_window::{HalfBlock, overlap, pcm};
use memory::{NoMemory, Sequence};
use vf_outside::Sink;

/// Adds the samples of the frame of this number between two halves, channel after channel.
fn add_frame(
    right: &[Sequence<i64>],
    left: &[Sequence<i64>],
    number: u32,
    waiting: &mut Vec<u8>,
) -> Result<(), NoMemory>
    requires right { IsHalfBlock (length left.now) right.now }
    requires left { IsHalfBlock (length left.now) left.now }
    requires number { number < overlap_len (2 * len_of right.now) (2 * len_of left.now) }
    ensures { OnOk result (waiting.new.items
        ≡ waiting.old.items ++ frame_bytes (overlap_frame right.now left.now number)) }
{
    for channel in 0..left.len() {
        let mut value = [0];
        let (first, second) = (right[channel].items(), left[channel].items());
        overlap(first, second, number, number + 1, &mut value);
        waiting.extend_from_slice(&pcm(value[0]).to_le_bytes())?;
    }
    Ok(())
}

/// Adds the frames of a span, which lie between these halves, to the bytes that wait, and puts
/// these whenever they are many.
pub fn write_frames<K: Sink>(
    right: &HalfBlock,
    left: &HalfBlock,
    span: &Span,
    waiting: &mut Vec<u8>,
    sink: &mut K,
) -> Result<(), DumpFault>
    requires { FitsHalves right.now left.now span.now }
    ensures step { GoesOn (K.written sink.old) (K.written sink.new)
        waiting.old.items waiting.new.items (span_frames right.now left.now span.now) result }
    ensures failed { result ≡ Err DumpFault.Failed
        → Rose (K.faults sink.old) (K.faults sink.new) }
    ensures later { K.faults sink.old ≤ K.faults sink.new }
{
    for number in span.from..span.to {
        add_frame(right.items(), left.items(), number, waiting)?;
        put_many(waiting, sink)?;
    }
    Ok(())
}
