ghost use Rattle.model_player.specs.Courses.{at_once};
ghost use Rattle.model_player.specs.Outcome.{sink_run};
ghost use Rattle.player_session.specs.Steps.{Writes};

use crate::notes::write_memory;
use model_player::Status;
use vf_outside::{PutFault, Sink};

/// Writes an output by one put, or by none where it has no bytes.
#[tactic(auto, using(crate::proofs::Puts::put_laws))]
pub fn write_at_once<K: Sink, N: Sink>(text: &[u8], out: &mut K, notes: &mut N) -> Status
    ensures { Writes at_once text.now
        (sink_run K.written K.faults out.old out.new)
        (sink_run N.written N.faults notes.old notes.new)
        result }
{
    if text.is_empty() {
        return Status::Ok;
    }
    match out.put(text) {
        Ok(()) => Status::Ok,
        Err(PutFault::Failed) => Status::Output,
        Err(PutFault::Memory) => write_memory(notes),
    }
}
