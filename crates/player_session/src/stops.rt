ghost use Rattle.std.specs.Prelude.{◌≡◌, ◌<◌, ⊤, List, ℕ, IfOk, string_bytes, string_len};
ghost use Rattle.model_player.specs.Courses.{Duty, refuses};
ghost use Rattle.model_player.specs.Outcome.{sink_run};
ghost use Rattle.player_session.specs.Steps.{FinishesStop, IsRefusal, StopsBy};

use crate::notes::{write_memory, write_note};
use memory::NoMemory;
use model_player::Status;
use std::alloc::AllocError;
use vf_outside::Sink;

/// Why a command comes to no output: a refusal, by its status and its line, or want of memory.
#[derive(Drop)]
pub enum Stop {
    Refused { status: Status, line: String },
    Memory,
}

impl From<NoMemory> for Stop {
    ghost use Rattle.std.specs.Prelude.{◌≡◌};
    ghost use Rattle.player_session.specs.declared.stops.Stop.TheVariants.{Memory};

    ghost from_gives = { λ _ stop. stop ≡ Memory };

    fn from(_: NoMemory) -> Self {
        Stop::Memory
    }
}

/// The refusal with this status and this line, if memory was found for the line.
pub fn refusal(status: Status, line: Result<String, AllocError>) -> Stop
    requires status { IsRefusal status }
    requires line { IfOk line (λ text. 0 < string_len text) }
    ensures { (text : List ℕ) → IfOk line (λ made. string_bytes made ≡ text)
        → StopsBy (λ (duty : Duty). duty ≡ refuses status text) result }
{
    match line {
        Ok(line) => Stop::Refused { status, line },
        Err(_) => Stop::Memory,
    }
}

/// Writes the line of a stop, and gives the status of the run.
pub fn write_stop<N: Sink>(notes: &mut N, stop: &Stop) -> Status
    requires { StopsBy (λ (duty : Duty). ⊤) stop.now }
    ensures { FinishesStop stop.now
        (sink_run N.written N.faults notes.old notes.new) result }
{
    match stop {
        Stop::Refused { status, line } => write_note(notes, line.as_bytes(), *status),
        Stop::Memory => write_memory(notes),
    }
}
