ghost use Rattle.std.specs.Prelude.{◌≡◌, Some, map, string_bytes, IfOk};
ghost use Rattle.std.specs.List.{All};
ghost use Rattle.model_synthesis.specs.Tables.{AreTables};
ghost use Rattle.model_line.specs.PacketRows.{rows_of};
ghost use Rattle.model_line.specs.Index.{Indexes};
ghost use Rattle.model_film.specs.Links.{IsLink};
ghost use Rattle.model_trial.specs.MadeConstants.{made_tables};
ghost use Rattle.model_trial.specs.MadeScript.{made_lanes};
ghost use Rattle.model_trial.specs.FilmRead.{links_read};
ghost use Rattle.model_player.specs.Commands as commands;
ghost use Rattle.model_player.specs.Texts.{trial_text};
ghost use Rattle.model_player.specs.Courses.{made_report, course_of};
ghost use Rattle.model_player.specs.Outcome.{Outcome, ShelfRun, sink_run};

use crate::notes::write_memory;
use crate::output::write_at_once;
use crate::trial_texts::trial_text;
use film_blocks::{Constants, Film, Reel};
use film_maker::{make_constants, make_film, make_script};
use memory::NoMemory;
use model_player::Status;
use model_script::Counts;
use player_script::Script;
use std::alloc::Global;
use vf_outside::{Gate, Sink};

/// The made constants.
fn made_constants(alloc: Global) -> Result<Constants, NoMemory>
    ensures tables { IfOk result (λ constants. constants ≡ made_tables) }
    ensures right { IfOk result AreTables }
{
    let bytes = make_constants(alloc)?;
    Constants::read(alloc, &bytes).map_err(|_| NoMemory)
}

/// The made film of a number.
fn made_film(alloc: Global, number: u64) -> Result<Film, NoMemory>
    ensures film { IfOk result (λ film. film.links ≡ links_read number) }
    ensures links { IfOk result (λ film. All IsLink film.links) }
    ensures index { IfOk result (λ film. Indexes (map rows_of film.links) film.index) }
{
    let bytes = make_film(alloc, number)?;
    match Film::open(alloc, bytes) {
        Ok(film) => Ok(film),
        Err(_) => Err(NoMemory),
    }
}

/// The made script of a number.
fn made_script(alloc: Global, number: u64) -> Result<Script, NoMemory>
    ensures { IfOk result (λ script. script ≡ made_lanes number) }
{
    let bytes = make_script(alloc, number)?;
    Script::read(alloc, &bytes).map_err(|_| NoMemory)
}

/// The made film of a number, with the made constants.
fn made_reel(alloc: Global, number: u64) -> Result<Reel, NoMemory>
    ensures tables { IfOk result (λ reel. reel.constants ≡ made_tables) }
    ensures film { IfOk result (λ reel. reel.film.links ≡ links_read number) }
    ensures right { IfOk result (λ reel. AreTables reel.constants) }
    ensures links { IfOk result (λ reel. All IsLink reel.film.links) }
    ensures index { IfOk result (λ reel. Indexes (map rows_of reel.film.links) reel.film.index) }
{
    let constants = made_constants(alloc)?;
    let film = made_film(alloc, number)?;
    Ok(Reel { film, constants })
}

/// Plays the made script of a number over its made film, and says what comes of it.
fn tried<G: Gate>(alloc: Global, number: u64, counts: Counts, gate: &G) -> Result<String, NoMemory>
    ensures { IfOk result (λ text. string_bytes text
        ≡ trial_text (links_read number) (made_report number)) }
{
    let reel = made_reel(alloc, number)?;
    let script = made_script(alloc, number)?;
    let report = script_playing::play(alloc, &reel, &script, counts, gate)?;
    let text = trial_text(alloc, &reel.film, &report)?;
    Ok(text)
}

/// Runs a trial of a number: makes its constants, its film and its script, which are accepted, and
/// plays them. It reads no file, so that nothing but want of memory or a sink can stop it.
pub fn trial<K: Sink, N: Sink, G: Gate>(
    alloc: Global,
    number: u64,
    counts: Counts,
    out: &mut K,
    notes: &mut N,
    gate: &G,
) -> Status
    ensures { (shelf : ShelfRun) → Outcome (course_of (Some (commands.trial number counts))) shelf
        (sink_run K.written K.faults out.old out.new)
        (sink_run N.written N.faults notes.old notes.new)
        result }
{
    match tried(alloc, number, counts, gate) {
        Ok(text) => write_at_once(text.as_bytes(), out, notes),
        Err(_) => write_memory(notes),
    }
}
