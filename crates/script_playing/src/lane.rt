ghost use Rattle.std.specs.Prelude.{◌≡◌, ◌+◌, ◌++◌, None, length, map, replicate, string_bytes, IfOk, OnOk};
ghost use Rattle.std.specs.List.{All};
ghost use Rattle.model_cursor.specs.Sources.{channels_in};
ghost use Rattle.model_script.specs.declared.limits.TheConstants.{GREATEST_CURSOR};
ghost use Rattle.model_script.specs.Scripts.{IsRight};
ghost use Rattle.model_report.specs.Lanes.{cursor_of, lane_answer};
ghost use Rattle.model_report.specs.Reports.{channels_of, film_channels, heard_of, answer_line, lane_line, lane_text};
ghost use Rattle.script_playing.specs.Playing.{CanBePlayed, state_at, IsAt, two_of};

use crate::answers::answer;
use crate::crosses::cross;
use cursor::{Cursor, Reply};
use film_blocks::{Index, Reel};
use memory::{NoMemory, Sequence};
use model_script::{Answer, Command, GREATEST_CURSOR};
use player_script::reply_text;
use std::alloc::{AllocError, Global};

/// The text of a lane: its first line, and the lines of the answers to its commands.
pub type Text = Sequence<u8>;

/// The number of a command's cursor, and of a cross that of the new one.
fn cursor_of(command: Command) -> u8
    ensures { result ≡ cursor_of command }
{
    match command {
        Command::Open { c } => c,
        Command::Read { c, n: _ } => c,
        Command::Seek { c, p: _ } => c,
        Command::Lap { c, p: _ } => c,
        Command::Cross { c: _, d } => d,
        Command::Tell { c } => c,
        Command::Close { c } => c,
    }
}

/// How many channels a link has.
fn link_channels(index: &Index, link: u32) -> u8
    ensures { result ≡ channels_in index.now.links link }
{
    if link < index.links() {
        index.link(link).channels
    } else {
        0
    }
}

/// How many channels the frames of an answer have: those of their link.
fn channels_of(index: &Index, answer: &Answer) -> u8
    ensures { result ≡ channels_of (channels_in index.now.links) answer.now }
{
    match answer {
        Answer::Given {
            reply: Reply::Frames { link, frames: _ },
        } => link_channels(index, *link),
        _ => 0,
    }
}

/// The cursors of a lane before its first command.
fn all_closed(alloc: Global) -> Result<Vec<Option<Cursor>>, NoMemory>
    ensures { IfOk result
        (λ cursors. cursors.items ≡ replicate (GREATEST_CURSOR + 1) None) }
{
    let mut cursors = Vec::new(alloc);
    for _ in 0..GREATEST_CURSOR + 1 {
        cursors.push(None)?;
    }
    Ok(cursors)
}

/// The first line of a lane.
fn lane_line(alloc: Global, number: u32) -> Result<String, AllocError>
    ensures { IfOk result (λ line. string_bytes line ≡ lane_line number) }
{
    format!(in alloc; "lane {number}\n")
}

/// The old and the new cursor of a cross of two cursors.
fn two_of(command: Command) -> Option<(u8, u8)>
    ensures { result ≡ two_of command }
{
    match command {
        Command::Cross { c, d } if c != d => Some((c, d)),
        _ => None,
    }
}

/// What a command answers, and does to the cursors of its lane.
fn answer_among(
    alloc: Global,
    reel: &Reel,
    cursors: &mut [Option<Cursor>],
    command: Command,
) -> Result<Answer, NoMemory>
    requires reel { CanBePlayed reel.now.constants reel.now.film.links reel.now.film.index }
    requires count { length cursors.old ≡ GREATEST_CURSOR + 1 }
    requires positions { All (IsAt reel.now.film.index) cursors.old }
    requires right { IsRight command }
    ensures answer { IfOk result (λ answer. lane_answer
        (heard_of reel.now.constants reel.now.film.links)
        (map (state_at reel.now.film.index.items) cursors.old) command
        ≡ (answer, map (state_at reel.now.film.index.items) cursors.new)) }
    ensures positions { All (IsAt reel.now.film.index) cursors.new }
{
    if let Some((old, new)) = two_of(command) {
        return cross(alloc, reel, cursors, usize::from(old), usize::from(new));
    }
    let number = usize::from(cursor_of(command));
    answer(alloc, reel, &mut cursors[number], command)
}

/// Does a command, and writes the line of its answer.
fn write_answer(
    alloc: Global,
    reel: &Reel,
    cursors: &mut [Option<Cursor>],
    command: Command,
    text: &mut Vec<u8>,
) -> Result<(), NoMemory>
    requires reel { CanBePlayed reel.now.constants reel.now.film.links reel.now.film.index }
    requires count { length cursors.old ≡ GREATEST_CURSOR + 1 }
    requires positions { All (IsAt reel.now.film.index) cursors.old }
    requires right { IsRight command }
    ensures text { OnOk result (text.new.items ≡ text.old.items
        ++ answer_line (film_channels reel.now.film.links) (
          command,
          (lane_answer
              (heard_of reel.now.constants reel.now.film.links)
              (map (state_at reel.now.film.index.items) cursors.old) command).0,
        )) }
    ensures cursors { OnOk result (map (state_at reel.now.film.index.items) cursors.new
        ≡ (lane_answer (heard_of reel.now.constants reel.now.film.links)
        (map (state_at reel.now.film.index.items) cursors.old) command).1) }
    ensures positions { All (IsAt reel.now.film.index) cursors.new }
{
    let answer = answer_among(alloc, reel, cursors, command)?;
    let channels = channels_of(reel.film.index(), &answer);
    reply_text(&command, &answer, channels, text)
}

/// The text of the lane of this number, which has these commands.
pub fn lane_text(
    alloc: Global,
    reel: &Reel,
    number: u32,
    commands: &[Command],
) -> Result<Text, NoMemory>
    requires reel { CanBePlayed reel.now.constants reel.now.film.links reel.now.film.index }
    requires right { All IsRight commands.now }
    ensures { IfOk result (λ text. text ≡ lane_text
        (heard_of reel.now.constants reel.now.film.links) (number, commands.now)) }
{
    let mut cursors = all_closed(alloc)?;
    let line = lane_line(alloc, number)?;
    let mut text = line.as_bytes().to_vec(alloc)?;
    for command in commands {
        write_answer(alloc, reel, &mut cursors, *command, &mut text)?;
    }
    Ok(Text::of(text))
}
