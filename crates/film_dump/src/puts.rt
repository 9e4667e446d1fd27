ghost use Rattle.std.specs.Prelude.{◌≡◌, ◌≤◌, [], OnOk};
ghost use Rattle.vf_outside.specs.Faults.{Rose};
ghost use Rattle.film_dump.specs.Dumps.{GoesOn};

use crate::fault::DumpFault;
use vf_outside::Sink;

/// As soon as frames of so many bytes wait to be written, they are put.
pub const PUT_SIZE: usize = 1 << 16;

/// Puts the bytes that wait, if there are any.
pub fn put_waiting<K: Sink>(waiting: &mut Vec<u8>, sink: &mut K) -> Result<(), DumpFault>
    ensures step { GoesOn (K.written sink.old) (K.written sink.new)
        waiting.old.items waiting.new.items [] result }
    ensures none { OnOk result (waiting.new.items ≡ []) }
    ensures failed { result ≡ Err DumpFault.Failed
        → Rose (K.faults sink.old) (K.faults sink.new) }
    ensures later { K.faults sink.old ≤ K.faults sink.new }
{
    if waiting.is_empty() {
        return Ok(());
    }
    sink.put(waiting)?;
    waiting.clear();
    Ok(())
}

/// Puts the bytes that wait, if they are many.
pub fn put_many<K: Sink>(waiting: &mut Vec<u8>, sink: &mut K) -> Result<(), DumpFault>
    ensures step { GoesOn (K.written sink.old) (K.written sink.new)
        waiting.old.items waiting.new.items [] result }
    ensures failed { result ≡ Err DumpFault.Failed
        → Rose (K.faults sink.old) (K.faults sink.new) }
    ensures later { K.faults sink.old ≤ K.faults sink.new }
{
    if waiting.len() < PUT_SIZE {
        return Ok(());
    }
    put_waiting(waiting, sink)
}
