ghost use Rattle.std.specs.Prelude.{Some, map};
ghost use Rattle.model_line.specs.PacketRows.{rows_of};
ghost use Rattle.model_line.specs.Index.{Indexes};
ghost use Rattle.model_player.specs.Commands.{info};
ghost use Rattle.model_player.specs.Texts.{info_text};
ghost use Rattle.model_player.specs.Courses.{at_once, course_of};
ghost use Rattle.model_player.specs.Outcome.{Outcome, shelf_run, sink_run};
ghost use Rattle.player_session.specs.Steps.{Writes};

use crate::files::read_film;
use crate::notes::write_memory;
use crate::output::write_at_once;
use crate::stops::write_stop;
use crate::texts::info_text;
use film_blocks::Film;
use model_player::Status;
use std::alloc::Global;
use vf_outside::{Shelf, Sink};

/// Writes what is said of a film.
#[tactic(auto, using(crate::proofs::Puts::put_laws))]
fn write_info<K: Sink, N: Sink>(alloc: Global, out: &mut K, notes: &mut N, film: &Film) -> Status
    requires { Indexes (map rows_of film.now.links) film.now.index }
    ensures { Writes at_once (info_text film.now.links)
        (sink_run K.written K.faults out.old out.new)
        (sink_run N.written N.faults notes.old notes.new)
        result }
{
    match info_text(alloc, film) {
        Ok(text) => write_at_once(text.as_bytes(), out, notes),
        Err(_) => write_memory(notes),
    }
}

/// Runs `info` for the film of this name.
pub fn info<F: Shelf, K: Sink, N: Sink>(
    alloc: Global,
    name: &str,
    shelf: &mut F,
    out: &mut K,
    notes: &mut N,
) -> Status
    ensures { Outcome (course_of (Some (info name.now)))
        (shelf_run F.told F.faults shelf.old shelf.new)
        (sink_run K.written K.faults out.old out.new)
        (sink_run N.written N.faults notes.old notes.new)
        result }
{
    match read_film(alloc, shelf, name) {
        Ok(film) => write_info(alloc, out, notes, &film),
        Err(stop) => write_stop(notes, &stop),
    }
}
