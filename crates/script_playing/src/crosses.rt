ghost use Rattle.std.specs.Prelude.{◌≡◌, ◌≢◌, ◌<◌, Some, None, length, slice_set, slice_index_or, IfOk, OnOk};
ghost use Rattle.std.specs.List.{All};
ghost use Rattle.model_cursor.specs.Splices.{crossed};
ghost use Rattle.model_cursor.specs.Positions.{IsCursorIn, state_in};
ghost use Rattle.model_film.specs.FilmLines.{film_line};
ghost use Rattle.model_report.specs.Lanes.{cross_answer};
ghost use Rattle.model_report.specs.Reports.{film_splicing, heard_of};
ghost use Rattle.script_playing.specs.Playing.{CanBePlayed, state_at, IsAt};

use crate::plain::PlainBlocks;
use cursor::Cursor;
use film_blocks::Reel;
use memory::NoMemory;
use model_script::Answer;
use std::alloc::Global;
use std::marker::Brand;
use std::sync::ledger::{Blank, Ledger};

/// Lets an open new cursor go over from an open old one, with blocks that are decoded where they
/// are needed.
fn cross_open<L: Ledger>(
    alloc: Global,
    blank: Blank,
    reel: &Reel,
    old: &Cursor,
    new: &mut Cursor,
) -> Result<(), NoMemory>
    requires name { blank.name ≡ L.name }
    requires parts { blank.parts ≡ L.parts }
    requires some_parts { 0 < blank.parts }
    requires reel { CanBePlayed reel.now.constants reel.now.film.links reel.now.film.index }
    requires old { IsCursorIn reel.now.film.index old.now }
    requires new { IsCursorIn reel.now.film.index new.old }
    ensures answer { OnOk result (crossed
        (film_splicing reel.now.constants reel.now.film.links)
        (film_line reel.now.constants reel.now.film.links)
        (state_in reel.now.film.index.items old.now) (state_in reel.now.film.index.items new.old)
        ≡ state_in reel.now.film.index.items new.new) }
    ensures position { IsCursorIn reel.now.film.index new.new }
{
    let mut blocks = PlainBlocks::<L>::new(reel, blank);
    let index = reel.film.index();
    old.crosslap(alloc, index, &reel.constants, &mut blocks, new)
}

/// Lets an open new cursor go over from an old one, where that is open.
fn cross_from(
    alloc: Global,
    reel: &Reel,
    old: &Option<Cursor>,
    new: &mut Cursor,
) -> Result<Answer, NoMemory>
    requires reel { CanBePlayed reel.now.constants reel.now.film.links reel.now.film.index }
    requires old { IsAt reel.now.film.index old.now }
    requires new { IsCursorIn reel.now.film.index new.old }
    ensures answer { IfOk result (λ answer. cross_answer
        (heard_of reel.now.constants reel.now.film.links)
        (state_at reel.now.film.index.items old.now)
        (Some (state_in reel.now.film.index.items new.old))
        ≡ (answer, Some (state_in reel.now.film.index.items new.new))) }
    ensures position { IsCursorIn reel.now.film.index new.new }
{
    match old {
        Some(old) => {
            cross_open::<Brand>(alloc, Blank::new(1), reel, old, new)?;
            Ok(Answer::Ok)
        }
        None => Ok(Answer::NoCursor),
    }
}

/// Lets the new cursor of a lane go over from the old one, which is another. Meanwhile the new one
/// is taken out of its place.
pub fn cross(
    alloc: Global,
    reel: &Reel,
    cursors: &mut [Option<Cursor>],
    old: usize,
    new: usize,
) -> Result<Answer, NoMemory>
    requires reel { CanBePlayed reel.now.constants reel.now.film.links reel.now.film.index }
    requires positions { All (IsAt reel.now.film.index) cursors.old }
    requires old { old < length cursors.old }
    requires new { new < length cursors.old }
    requires apart { old ≢ new }
    ensures answer { IfOk result (λ answer. cross_answer
        (heard_of reel.now.constants reel.now.film.links)
        (state_at reel.now.film.index.items (slice_index_or cursors.old old None))
        (state_at reel.now.film.index.items (slice_index_or cursors.old new None))
        ≡ (answer, state_at reel.now.film.index.items (slice_index_or cursors.new new None))) }
    ensures others { cursors.new ≡ slice_set cursors.old new (slice_index_or cursors.new new None) }
    ensures positions { All (IsAt reel.now.film.index) cursors.new }
{
    let Some(mut taken) = cursors[new].take() else {
        return Ok(Answer::NoCursor);
    };
    let answer = cross_from(alloc, reel, &cursors[old], &mut taken);
    cursors[new] = Some(taken);
    answer
}
