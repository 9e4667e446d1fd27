ghost use Rattle.std.specs.Prelude.{map, string_bytes, MatchOption};
ghost use Rattle.model_player.specs.Commands.{command_of};
ghost use Rattle.model_player.specs.Outcome.{Runs, RunsAlone, IsLeft, shelf_run, sink_run};

use crate::command::{Command, command_of};
use crate::dump::dump;
use crate::info::info;
use crate::notes::write_note;
use crate::play::play;
use crate::trial::trial;
use model_player::Status;
use std::alloc::Global;
use vf_outside::{Gate, Shelf, Sink};

/// Runs a command that takes no part in threads. It always returns, and where it answers a status,
/// what that promises is what `player` promises. It answers None to `play` and `trial`, which take
/// part in threads, and then uses none of its other arguments.
pub fn player_alone<F: Shelf, K: Sink, N: Sink>(
    alloc: Global,
    words: &[String],
    shelf: &mut F,
    out: &mut K,
    notes: &mut N,
) -> Option<Status>
    ensures { MatchOption result
        (IsLeft (command_of (map string_bytes words.now))
        (shelf.old, shelf.new) (out.old, out.new) (notes.old, notes.new))
        (RunsAlone (command_of (map string_bytes words.now))
        (shelf_run F.told F.faults shelf.old shelf.new)
        (sink_run K.written K.faults out.old out.new)
        (sink_run N.written N.faults notes.old notes.new)) }
{
    let status = match command_of(words) {
        Some(Command::Info { film }) => info(alloc, film, shelf, out, notes),
        Some(Command::Dump { constants, film }) => {
            dump(alloc, constants, film, shelf, out, notes)
        }
        Some(Command::Play(_) | Command::Trial { .. }) => return None,
        None => write_note(notes, b"usage\n", Status::Usage),
    };
    Some(status)
}

/// Does all that the program does: runs the command of the words after the program's name over the
/// files of a shelf, writes its output to `out`, and the line of a refusal to `notes`. The gate is
/// for `play` and `trial`.
///
/// What it promises stands in `Runs`: each status has its cause, and the sinks hold what goes with
/// it; where the film's bytes are told and no count of faults rose, the command's duty was done, or
/// memory ran out; and only words that are no command are answered as such.
pub fn player<F: Shelf, K: Sink, N: Sink, G: Gate>(
    alloc: Global,
    words: &[String],
    shelf: &mut F,
    out: &mut K,
    notes: &mut N,
    gate: &G,
) -> Status
    ensures { Runs (command_of (map string_bytes words.now))
        (shelf_run F.told F.faults shelf.old shelf.new)
        (sink_run K.written K.faults out.old out.new)
        (sink_run N.written N.faults notes.old notes.new)
        result }
{
    if let Some(status) = player_alone(alloc, words, shelf, out, notes) {
        return status;
    }
    match command_of(words) {
        Some(Command::Play(named)) => play(alloc, named, shelf, out, notes, gate),
        Some(Command::Trial { number, counts }) => trial(alloc, number, counts, out, notes, gate),
        _ => unreachable!(),
    }
}
