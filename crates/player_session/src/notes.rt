ghost use Rattle.std.specs.Prelude.{◌≡◌, ◌<◌, length};
ghost use Rattle.model_player.specs.Texts.{memory_line};
ghost use Rattle.model_player.specs.Outcome.{sink_run, Tries};
ghost use Rattle.player_session.specs.Steps.{Finishes};

use model_player::Status;
use vf_outside::{PutFault, Sink};

/// Tries to write the line of want of memory, whatever the put of it answers.
pub fn write_memory<N: Sink>(notes: &mut N) -> Status
    ensures status { result ≡ Status.Memory }
    ensures notes { Tries (sink_run N.written N.faults notes.old notes.new) memory_line }
{
    let _ = notes.put(b"memory\n");
    Status::Memory
}

/// Writes a line, and gives the status that it goes with if it is written.
pub fn write_note<N: Sink>(notes: &mut N, line: &[u8], status: Status) -> Status
    requires { 0 < length line.now }
    ensures { Finishes status line.now (sink_run N.written N.faults notes.old notes.new) result }
{
    match notes.put(line) {
        Ok(()) => status,
        Err(PutFault::Failed) => Status::Output,
        Err(PutFault::Memory) => write_memory(notes),
    }
}
