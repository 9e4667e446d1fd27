ghost use Rattle.std.specs.Prelude.{◌≡◌, ◌≤◌, List, ℕ, Vec, map, IfOk, vec_len};
ghost use Rattle.std.specs.List.{All};
ghost use Rattle.model_synthesis.specs.Tables.{ConstantTables, AreTables};
ghost use Rattle.model_line.specs.Acceptance.{FilmLink};
ghost use Rattle.model_line.specs.PacketRows.{rows_of};
ghost use Rattle.model_line.specs.Index.{Indexes};
ghost use Rattle.model_film.specs.Links.{IsLink};
ghost use Rattle.model_script.specs.declared.command.Command.{Command};
ghost use Rattle.model_player.specs.Courses.{Course, reads, reads_constants, reads_film, reads_script};
ghost use Rattle.model_player.specs.Outcome.{ShelfRun, shelf_run};
ghost use Rattle.player_session.specs.Steps.{GoesOn, LiesWithin};

use crate::stops::{Stop, refusal};
use crate::texts::{
    cannot_read_line, constants_fault_line, fault_line, script_fault_line, too_long_line,
};
use film_blocks::{Constants, Film, Reel};
use model_line::FilmFault;
use model_player::{CONSTANTS_LIMIT, FILM_LIMIT, SCRIPT_LIMIT, Status};
use model_synthesis::ConstantsFault;
use player_script::{Script, ScriptFault};
use std::alloc::Global;
use vf_outside::{FetchFault, Shelf};

/// The bytes of the file of this name, within a limit.
fn fetched<F: Shelf>(alloc: Global, shelf: &mut F, name: &str, limit: u64) -> Result<Vec<u8>, Stop>
    ensures course { (run : ShelfRun)
        → LiesWithin run (shelf_run F.told F.faults shelf.old shelf.new)
        → (next : List ℕ → Course)
        → GoesOn run (reads name.now limit next) (λ bytes. next bytes.items) result }
    ensures bound { IfOk result (λ bytes. vec_len bytes ≤ limit) }
    ensures later { (other : List ℕ) → F.faults shelf.old other ≤ F.faults shelf.new other }
    ensures unchanged { (other : List ℕ) → F.told shelf.new other ≡ F.told shelf.old other }
{
    match shelf.fetch(alloc, name, limit) {
        Ok(bytes) => Ok(bytes),
        Err(FetchFault::Failed) => Err(refusal(Status::Input, cannot_read_line(alloc, name))),
        Err(FetchFault::TooLong) => {
            let line = too_long_line(alloc, name, limit);
            Err(refusal(Status::TooLong, line))
        }
        Err(FetchFault::Memory) => Err(Stop::Memory),
    }
}

/// The constants of the file of this name.
pub fn read_constants<F: Shelf>(alloc: Global, shelf: &mut F, name: &str) -> Result<Constants, Stop>
    ensures course { (run : ShelfRun)
        → LiesWithin run (shelf_run F.told F.faults shelf.old shelf.new)
        → (next : ConstantTables → Course)
        → GoesOn run (reads_constants name.now next) (λ constants. next constants) result }
    ensures tables { IfOk result AreTables }
    ensures later { (other : List ℕ) → F.faults shelf.old other ≤ F.faults shelf.new other }
    ensures unchanged { (other : List ℕ) → F.told shelf.new other ≡ F.told shelf.old other }
{
    let bytes = fetched(alloc, shelf, name, CONSTANTS_LIMIT)?;
    match Constants::read(alloc, &bytes) {
        Ok(constants) => Ok(constants),
        Err(fault) => match fault {
            ConstantsFault::Memory => Err(Stop::Memory),
            cause => Err(refusal(Status::Constants, constants_fault_line(alloc, &cause))),
        },
    }
}

/// The film of the file of this name.
pub fn read_film<F: Shelf>(alloc: Global, shelf: &mut F, name: &str) -> Result<Film, Stop>
    ensures course { (run : ShelfRun)
        → LiesWithin run (shelf_run F.told F.faults shelf.old shelf.new)
        → (next : List FilmLink → Course)
        → GoesOn run (reads_film name.now next) (λ film. next film.links) result }
    ensures links { IfOk result (λ film. All IsLink film.links) }
    ensures index { IfOk result (λ film. Indexes (map rows_of film.links) film.index) }
    ensures later { (other : List ℕ) → F.faults shelf.old other ≤ F.faults shelf.new other }
    ensures unchanged { (other : List ℕ) → F.told shelf.new other ≡ F.told shelf.old other }
{
    let bytes = fetched(alloc, shelf, name, FILM_LIMIT)?;
    match Film::open(alloc, bytes) {
        Ok(film) => Ok(film),
        Err(fault) => match fault {
            FilmFault::Memory => Err(Stop::Memory),
            cause => Err(refusal(Status::Film, fault_line(alloc, &cause))),
        },
    }
}

/// The film of this name, and the constants of that one, which are read first.
pub fn read_reel<F: Shelf>(
    alloc: Global,
    shelf: &mut F,
    constants: &str,
    film: &str,
) -> Result<Reel, Stop>
    ensures course { (run : ShelfRun)
        → LiesWithin run (shelf_run F.told F.faults shelf.old shelf.new)
        → (next : ConstantTables → List FilmLink → Course)
        → GoesOn run
        (reads_constants constants.now (λ tables. reads_film film.now (next tables)))
        (λ reel. next reel.constants reel.film.links) result }
    ensures tables { IfOk result (λ reel. AreTables reel.constants) }
    ensures links { IfOk result (λ reel. All IsLink reel.film.links) }
    ensures index { IfOk result (λ reel. Indexes (map rows_of reel.film.links) reel.film.index) }
    ensures later { (other : List ℕ) → F.faults shelf.old other ≤ F.faults shelf.new other }
    ensures unchanged { (other : List ℕ) → F.told shelf.new other ≡ F.told shelf.old other }
{
    let constants = read_constants(alloc, shelf, constants)?;
    let film = read_film(alloc, shelf, film)?;
    Ok(Reel { film, constants })
}

/// The script of the file of this name.
pub fn read_script<F: Shelf>(alloc: Global, shelf: &mut F, name: &str) -> Result<Script, Stop>
    ensures course { (run : ShelfRun)
        → LiesWithin run (shelf_run F.told F.faults shelf.old shelf.new)
        → (next : List (List Command) → Course)
        → GoesOn run (reads_script name.now next) (λ script. next script) result }
    ensures later { (other : List ℕ) → F.faults shelf.old other ≤ F.faults shelf.new other }
    ensures unchanged { (other : List ℕ) → F.told shelf.new other ≡ F.told shelf.old other }
{
    let bytes = fetched(alloc, shelf, name, SCRIPT_LIMIT)?;
    match Script::read(alloc, &bytes) {
        Ok(script) => Ok(script),
        Err(fault) => match fault {
            ScriptFault::Memory => Err(Stop::Memory),
            cause => Err(refusal(Status::Script, script_fault_line(alloc, &cause))),
        },
    }
}
