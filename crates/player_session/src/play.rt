ghost use Rattle.std.specs.Prelude.{◌≡◌, ◌≤◌, ◌<◌, List, ℕ, Some, length, IfOk, OnOk};
ghost use Rattle.std.specs.List.{All, concat};
ghost use Rattle.vf_outside.specs.Told.{AppendsPart};
ghost use Rattle.std.specs.Io.KnownBytes.{Appends};
ghost use Rattle.vf_outside.specs.Faults.{Rose};
ghost use Rattle.model_player.specs.Courses.{in_parts, writes, comes_to, course_of};
ghost use Rattle.model_player.specs.Outcome.{Outcome, ShelfRun, shelf_run, sink_run};
ghost use Rattle.player_session.specs.Steps.{GoesOn, LiesWithin, Writes};
ghost use Rattle.player_session.specs.Words.{play_named};

use crate::command::Play;
use crate::files::{read_reel, read_script};
use crate::notes::write_memory;
use crate::stops::{Stop, write_stop};
use model_player::Status;
use script_playing::{Report, Text};
use std::alloc::Global;
use vf_outside::{Gate, PutFault, Shelf, Sink};

/// Puts texts, one after the other.
fn put_texts<K: Sink>(texts: &[Text], out: &mut K) -> Result<(), PutFault>
    requires some { All (λ text. 0 < length text) texts.now }
    ensures ok { OnOk result (Appends (K.written out.old) (K.written out.new) (concat texts.now)) }
    ensures failed { result ≡ Err PutFault.Failed → Rose (K.faults out.old) (K.faults out.new) }
    ensures part { AppendsPart (K.written out.old) (K.written out.new) (concat texts.now) }
    ensures later { K.faults out.old ≤ K.faults out.new }
{
    for text in texts {
        out.put(text.items())?;
    }
    Ok(())
}

/// Writes the texts of all lanes.
fn write_report<K: Sink, N: Sink>(report: &Report, out: &mut K, notes: &mut N) -> Status
    requires { All (λ text. 0 < length text) report.now }
    ensures { Writes in_parts (concat report.now)
        (sink_run K.written K.faults out.old out.new)
        (sink_run N.written N.faults notes.old notes.new)
        result }
{
    match put_texts(report.items(), out) {
        Ok(()) => Status::Ok,
        Err(PutFault::Failed) => Status::Output,
        Err(PutFault::Memory) => write_memory(notes),
    }
}

/// Plays a script over a film, once its files are read: first the constants, then the film.
fn played<F: Shelf, G: Gate>(
    alloc: Global,
    play: Play<'_>,
    shelf: &mut F,
    gate: &G,
) -> Result<Report, Stop>
    ensures course { (run : ShelfRun)
        → LiesWithin run (shelf_run F.told F.faults shelf.old shelf.new)
        → GoesOn run (course_of (Some (play_named play.entry)))
        (λ report. comes_to (writes in_parts (concat report))) result }
    ensures some { IfOk result (All (λ text. 0 < length text)) }
{
    let reel = read_reel(alloc, shelf, play.constants, play.film)?;
    let script = read_script(alloc, shelf, play.script)?;
    let report = script_playing::play(alloc, &reel, &script, play.counts, gate)?;
    Ok(report)
}

/// Runs a play.
pub fn play<F: Shelf, K: Sink, N: Sink, G: Gate>(
    alloc: Global,
    play: Play<'_>,
    shelf: &mut F,
    out: &mut K,
    notes: &mut N,
    gate: &G,
) -> Status
    ensures { Outcome (course_of (Some (play_named play.entry)))
        (shelf_run F.told F.faults shelf.old shelf.new)
        (sink_run K.written K.faults out.old out.new)
        (sink_run N.written N.faults notes.old notes.new)
        result }
{
    match played(alloc, play, shelf, gate) {
        Ok(report) => write_report(&report, out, notes),
        Err(stop) => write_stop(notes, &stop),
    }
}
