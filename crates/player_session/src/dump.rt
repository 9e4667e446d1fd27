ghost use Rattle.std.specs.Prelude.{Some, map};
ghost use Rattle.std.specs.List.{All};
ghost use Rattle.model_synthesis.specs.Tables.{AreTables};
ghost use Rattle.model_line.specs.PacketRows.{rows_of};
ghost use Rattle.model_line.specs.Index.{Indexes};
ghost use Rattle.model_film.specs.Links.{IsLink};
ghost use Rattle.model_film.specs.Dumps.{dump_of};
ghost use Rattle.model_player.specs.Commands as commands;
ghost use Rattle.model_player.specs.Courses.{in_parts, course_of};
ghost use Rattle.model_player.specs.Outcome.{Outcome, shelf_run, sink_run};
ghost use Rattle.player_session.specs.Steps.{Writes};

use crate::files::read_reel;
use crate::notes::write_memory;
use crate::stops::write_stop;
use film_blocks::Reel;
use film_dump::DumpFault;
use model_player::Status;
use std::alloc::Global;
use vf_outside::{Shelf, Sink};

/// Writes the line of a film.
fn write_dump<K: Sink, N: Sink>(alloc: Global, reel: &Reel, out: &mut K, notes: &mut N) -> Status
    requires tables { AreTables reel.now.constants }
    requires links { All IsLink reel.now.film.links }
    requires index { Indexes (map rows_of reel.now.film.links) reel.now.film.index }
    ensures { Writes in_parts (dump_of reel.now.constants reel.now.film.links)
        (sink_run K.written K.faults out.old out.new)
        (sink_run N.written N.faults notes.old notes.new)
        result }
{
    match film_dump::dump(alloc, reel, out) {
        Ok(()) => Status::Ok,
        Err(DumpFault::Failed) => Status::Output,
        Err(DumpFault::Memory) => write_memory(notes),
    }
}

/// Runs `dump` for files of these names.
pub fn dump<F: Shelf, K: Sink, N: Sink>(
    alloc: Global,
    constants: &str,
    film: &str,
    shelf: &mut F,
    out: &mut K,
    notes: &mut N,
) -> Status
    ensures { Outcome (course_of (Some (commands.dump constants.now film.now)))
        (shelf_run F.told F.faults shelf.old shelf.new)
        (sink_run K.written K.faults out.old out.new)
        (sink_run N.written N.faults notes.old notes.new)
        result }
{
    match read_reel(alloc, shelf, constants, film) {
        Ok(reel) => write_dump(alloc, &reel, out, notes),
        Err(stop) => write_stop(notes, &stop),
    }
}
