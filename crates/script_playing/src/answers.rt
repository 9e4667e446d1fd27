ghost use Rattle.std.specs.Prelude.{◌≡◌, ◌<◌, ℕ, List, IfOk};
ghost use Rattle.model_line.specs.declared.item.Item.{Item};
ghost use Rattle.model_line.specs.Index.{Indexed};
ghost use Rattle.model_cursor.specs.Cursors.{read};
ghost use Rattle.model_cursor.specs.Splices.{lap};
ghost use Rattle.model_cursor.specs.Plans.{sought_reply};
ghost use Rattle.model_cursor.specs.Positions.{IsCursorIn, state_in};
ghost use Rattle.model_film.specs.FilmLines.{film_line};
ghost use Rattle.model_script.specs.Scripts.{IsRight};
ghost use Rattle.model_report.specs.Lanes.{Heard, cursor_answer};
ghost use Rattle.model_report.specs.Reports.{film_splicing, heard_of};
ghost use Rattle.script_playing.specs.Playing.{CanBePlayed, state_at, IsAt};

use crate::plain::PlainBlocks;
use cursor::{Cursor, Reply, Sought};
use film_blocks::Reel;
use memory::NoMemory;
use model_script::{Answer, Command};
use std::alloc::Global;
use std::marker::Brand;
use std::sync::ledger::{Blank, Ledger};

/// Opens a cursor at the beginning of the line, where it is closed.
fn open(cursor: &mut Option<Cursor>) -> Answer
    ensures answer { (heard : Heard) (items : List Item) (c : ℕ)
        → cursor_answer heard (Command.Open c) (state_at items cursor.old)
        ≡ (result, state_at items cursor.new) }
    ensures position { (index : Indexed) → IsAt index cursor.old → IsAt index cursor.new }
{
    if cursor.is_some() {
        return Answer::AlreadyOpen;
    }
    *cursor = Some(Cursor::start());
    Answer::Ok
}

/// Closes a cursor, where it is open.
fn close(cursor: &mut Option<Cursor>) -> Answer
    ensures answer { (heard : Heard) (items : List Item) (c : ℕ)
        → cursor_answer heard (Command.Close c) (state_at items cursor.old)
        ≡ (result, state_at items cursor.new) }
    ensures position { (index : Indexed) → IsAt index cursor.new }
{
    match cursor.take() {
        Some(_) => Answer::Ok,
        None => Answer::NoCursor,
    }
}

/// Tells where a cursor stands.
fn tell(reel: &Reel, cursor: &Option<Cursor>) -> Answer
    requires reel { CanBePlayed reel.now.constants reel.now.film.links reel.now.film.index }
    requires position { IsAt reel.now.film.index cursor.now }
    ensures { (c : ℕ) → cursor_answer (heard_of reel.now.constants reel.now.film.links)
        (Command.Tell c) (state_at reel.now.film.index.items cursor.now)
        ≡ (result, state_at reel.now.film.index.items cursor.now) }
{
    match cursor {
        Some(cursor) => Answer::Told {
            place: cursor.tell(),
        },
        None => Answer::NoCursor,
    }
}

/// What a seek or a lap answers, as a reply.
fn sought_reply(sought: Sought) -> Reply
    ensures { result ≡ sought_reply sought }
{
    match sought {
        Sought::At { place } => Reply::At { place },
        Sought::Invalid { total } => Reply::Invalid { total },
    }
}

/// Moves a cursor to the frame of this number.
fn seek(reel: &Reel, cursor: &mut Option<Cursor>, place: u64) -> Answer
    requires reel { CanBePlayed reel.now.constants reel.now.film.links reel.now.film.index }
    requires position { IsAt reel.now.film.index cursor.old }
    ensures answer { (c : ℕ) → cursor_answer (heard_of reel.now.constants reel.now.film.links)
        (Command.Seek c place) (state_at reel.now.film.index.items cursor.old)
        ≡ (result, state_at reel.now.film.index.items cursor.new) }
    ensures position { IsAt reel.now.film.index cursor.new }
{
    match cursor {
        Some(cursor) => {
            let sought = cursor.seek(reel.film.index(), place);
            Answer::Given {
                reply: sought_reply(sought),
            }
        }
        None => Answer::NoCursor,
    }
}

/// Gives at most so many frames from an open cursor on, over blocks that are decoded where they are
/// needed.
fn read_open<L: Ledger>(
    alloc: Global,
    blank: Blank,
    reel: &Reel,
    cursor: &mut Cursor,
    frames: u32,
) -> Result<Reply, NoMemory>
    requires name { blank.name ≡ L.name }
    requires parts { blank.parts ≡ L.parts }
    requires some_parts { 0 < blank.parts }
    requires reel { CanBePlayed reel.now.constants reel.now.film.links reel.now.film.index }
    requires position { IsCursorIn reel.now.film.index cursor.old }
    requires some { 0 < frames }
    ensures answer { IfOk result (λ reply. read
        (film_line reel.now.constants reel.now.film.links) frames
        (state_in reel.now.film.index.items cursor.old)
        ≡ (reply, state_in reel.now.film.index.items cursor.new)) }
    ensures position { IsCursorIn reel.now.film.index cursor.new }
{
    let mut blocks = PlainBlocks::<L>::new(reel, blank);
    let index = reel.film.index();
    cursor.read(alloc, index, &reel.constants, &mut blocks, frames)
}

/// Gives at most so many frames from a cursor on.
fn read(
    alloc: Global,
    reel: &Reel,
    cursor: &mut Option<Cursor>,
    frames: u32,
) -> Result<Answer, NoMemory>
    requires reel { CanBePlayed reel.now.constants reel.now.film.links reel.now.film.index }
    requires position { IsAt reel.now.film.index cursor.old }
    requires some { 0 < frames }
    ensures answer { IfOk result (λ answer. (c : ℕ)
        → cursor_answer (heard_of reel.now.constants reel.now.film.links)
        (Command.Read c frames) (state_at reel.now.film.index.items cursor.old)
        ≡ (answer, state_at reel.now.film.index.items cursor.new)) }
    ensures position { IsAt reel.now.film.index cursor.new }
{
    match cursor {
        Some(cursor) => {
            let reply = read_open::<Brand>(alloc, Blank::new(1), reel, cursor, frames)?;
            Ok(Answer::Given { reply })
        }
        None => Ok(Answer::NoCursor),
    }
}

/// Moves an open cursor to the frame of this number, over from the frames that follow, with blocks
/// that are decoded where they are needed.
fn lap_open<L: Ledger>(
    alloc: Global,
    blank: Blank,
    reel: &Reel,
    cursor: &mut Cursor,
    place: u64,
) -> Result<Sought, NoMemory>
    requires name { blank.name ≡ L.name }
    requires parts { blank.parts ≡ L.parts }
    requires some_parts { 0 < blank.parts }
    requires reel { CanBePlayed reel.now.constants reel.now.film.links reel.now.film.index }
    requires position { IsCursorIn reel.now.film.index cursor.old }
    ensures answer { IfOk result (λ sought. lap
        (film_splicing reel.now.constants reel.now.film.links)
        (film_line reel.now.constants reel.now.film.links) place
        (state_in reel.now.film.index.items cursor.old)
        ≡ (sought, state_in reel.now.film.index.items cursor.new)) }
    ensures position { IsCursorIn reel.now.film.index cursor.new }
{
    let mut blocks = PlainBlocks::<L>::new(reel, blank);
    let index = reel.film.index();
    cursor.seek_lap(alloc, index, &reel.constants, &mut blocks, place)
}

/// Moves a cursor to the frame of this number, over from the frames that follow.
fn lap(
    alloc: Global,
    reel: &Reel,
    cursor: &mut Option<Cursor>,
    place: u64,
) -> Result<Answer, NoMemory>
    requires reel { CanBePlayed reel.now.constants reel.now.film.links reel.now.film.index }
    requires position { IsAt reel.now.film.index cursor.old }
    ensures answer { IfOk result (λ answer. (c : ℕ)
        → cursor_answer (heard_of reel.now.constants reel.now.film.links)
        (Command.Lap c place) (state_at reel.now.film.index.items cursor.old)
        ≡ (answer, state_at reel.now.film.index.items cursor.new)) }
    ensures position { IsAt reel.now.film.index cursor.new }
{
    match cursor {
        Some(cursor) => {
            let sought = lap_open::<Brand>(alloc, Blank::new(1), reel, cursor, place)?;
            Ok(Answer::Given {
                reply: sought_reply(sought),
            })
        }
        None => Ok(Answer::NoCursor),
    }
}

/// Crosses a cursor with itself, which changes nothing.
fn cross_itself(cursor: &Option<Cursor>) -> Answer
    ensures { (heard : Heard) (items : List Item) (c d : ℕ)
        → cursor_answer heard (Command.Cross c d) (state_at items cursor.now)
        ≡ (result, state_at items cursor.now) }
{
    match cursor {
        Some(_) => Answer::Ok,
        None => Answer::NoCursor,
    }
}

/// What a command answers, and does to its cursor. A cross is one of this cursor with itself.
pub fn answer(
    alloc: Global,
    reel: &Reel,
    cursor: &mut Option<Cursor>,
    command: Command,
) -> Result<Answer, NoMemory>
    requires reel { CanBePlayed reel.now.constants reel.now.film.links reel.now.film.index }
    requires position { IsAt reel.now.film.index cursor.old }
    requires right { IsRight command }
    ensures answer { IfOk result (λ answer.
        cursor_answer (heard_of reel.now.constants reel.now.film.links) command
        (state_at reel.now.film.index.items cursor.old)
        ≡ (answer, state_at reel.now.film.index.items cursor.new)) }
    ensures position { IsAt reel.now.film.index cursor.new }
{
    match command {
        Command::Open { c: _ } => Ok(open(cursor)),
        Command::Read { c: _, n } => read(alloc, reel, cursor, n),
        Command::Seek { c: _, p } => Ok(seek(reel, cursor, p)),
        Command::Lap { c: _, p } => lap(alloc, reel, cursor, p),
        Command::Cross { c: _, d: _ } => Ok(cross_itself(cursor)),
        Command::Tell { c: _ } => Ok(tell(reel, cursor)),
        Command::Close { c: _ } => Ok(close(cursor)),
    }
}
