ghost use Rattle.std.specs.Prelude.{◌≡◌, ◌<◌, ◌++◌, [], ◌∷◌, Ok, OnOk, IfOk};
ghost use Rattle.std.specs.List.{flat_map};
ghost use Rattle.std.specs.Fmt.{decimal};
ghost use Rattle.model_script.specs.Scripts.{script_of};
ghost use Rattle.model_trial.specs.MadeScript.{command_line, ended_line, lane_lines, drawn_for, drawn_of_cursor, drawn_command, drawn_commands, drawn_lane, made_lanes, made_script};

use crate::draws::Draws;
use itoa::Buffer;
use memory::NoMemory;
use model_script::{LINE_FEED, SPACE};
use model_trial::{MADE_COMMANDS, MADE_LANES};
use std::alloc::Global;

/// Writes bytes.
fn put(bytes: &mut Vec<u8>, more: &[u8]) -> Result<(), NoMemory>
    ensures { OnOk result (bytes.new.items ≡ bytes.old.items ++ more.now) }
{
    bytes.extend_from_slice(more)?;
    Ok(())
}

/// Writes a front, a number, and an end.
fn put_number(bytes: &mut Vec<u8>, front: &[u8], number: u32, end: u8) -> Result<(), NoMemory>
    ensures { OnOk result
        (bytes.new.items ≡ bytes.old.items ++ ((front.now ++ decimal number) ++ end ∷ [])) }
{
    put(bytes, front)?;
    let mut digits = Buffer::new();
    put(bytes, digits.format(number).as_bytes())?;
    put(bytes, &[end])
}

/// Writes a line of a front and two numbers.
fn put_numbers(bytes: &mut Vec<u8>, front: &[u8], first: u32, second: u32) -> Result<(), NoMemory>
    ensures { OnOk result (bytes.new.items
        ≡ bytes.old.items ++ (((front.now ++ decimal first) ++ 32 ∷ decimal second) ++ 10 ∷ [])) }
{
    put_number(bytes, front, first, SPACE)?;
    put_number(bytes, &[], second, LINE_FEED)
}

/// Writes a command of a cursor, of its kind, and draws what it needs.
#[tactic(auto, unfolding(model_trial::specs::MadeScript::drawn_for))]
fn put_for(draws: &mut Draws, bytes: &mut Vec<u8>, kind: u32, cursor: u32) -> Result<(), NoMemory>
    requires { cursor < 2 }
    ensures written { OnOk result (bytes.new.items
        ≡ bytes.old.items ++ command_line (drawn_for kind cursor draws.old).0) }
    ensures drawn { draws.new ≡ (drawn_for kind cursor draws.old).1 }
{
    if kind < 4 {
        put_numbers(bytes, b"read ", cursor, 1 + draws.draw(2000))
    } else if kind == 4 {
        put_numbers(bytes, b"seek ", cursor, draws.draw(400_000))
    } else if kind == 5 {
        put_numbers(bytes, b"lap ", cursor, draws.draw(400_000))
    } else {
        put_number(bytes, b"tell ", cursor, LINE_FEED)
    }
}

/// Draws a cursor, and writes a command of it, of its kind.
#[tactic(auto, unfolding(model_trial::specs::MadeScript::drawn_of_cursor))]
fn put_of_cursor(draws: &mut Draws, bytes: &mut Vec<u8>, kind: u32) -> Result<(), NoMemory>
    ensures written { OnOk result (bytes.new.items
        ≡ bytes.old.items ++ command_line (drawn_of_cursor kind draws.old).0) }
    ensures drawn { draws.new ≡ (drawn_of_cursor kind draws.old).1 }
{
    let cursor = draws.draw(2);
    put_for(draws, bytes, kind, cursor)
}

/// Draws a command, and writes its line.
fn put_command(draws: &mut Draws, bytes: &mut Vec<u8>) -> Result<(), NoMemory>
    ensures written { OnOk result (bytes.new.items
        ≡ bytes.old.items ++ command_line (drawn_command draws.old).0) }
    ensures drawn { draws.new ≡ (drawn_command draws.old).1 }
{
    let kind = draws.draw(8);
    if kind == 6 {
        put(bytes, b"cross 0 1\n")
    } else {
        put_of_cursor(draws, bytes, kind)
    }
}

/// Draws the commands of a lane, and writes their lines.
fn put_commands(draws: &mut Draws, bytes: &mut Vec<u8>) -> Result<(), NoMemory>
    ensures written { OnOk result (bytes.new.items
        ≡ bytes.old.items ++ flat_map command_line (drawn_commands draws.old).0) }
    ensures drawn { OnOk result (draws.new ≡ (drawn_commands draws.old).1) }
{
    for _ in 0..MADE_COMMANDS {
        put_command(draws, bytes)?;
    }
    Ok(())
}

/// Draws a lane, and writes its lines.
fn put_lane(draws: &mut Draws, bytes: &mut Vec<u8>) -> Result<(), NoMemory>
    ensures written { OnOk result (bytes.new.items
        ≡ bytes.old.items ++ flat_map ended_line (lane_lines (drawn_lane draws.old).0)) }
    ensures drawn { OnOk result (draws.new ≡ (drawn_lane draws.old).1) }
{
    put(bytes, b"lane\nopen 0\nopen 1\n")?;
    put_commands(draws, bytes)
}

/// The made script of a number, which is accepted.
pub fn make_script(alloc: Global, number: u64) -> Result<Vec<u8>, NoMemory>
    ensures made { IfOk result (λ bytes. bytes.items ≡ made_script number) }
    ensures accepted { IfOk result (λ bytes. script_of bytes.items ≡ Ok (made_lanes number)) }
{
    let mut draws = Draws::new(number.wrapping_add(1));
    let mut bytes = Vec::new(alloc);
    for _ in 0..MADE_LANES {
        put_lane(&mut draws, &mut bytes)?;
    }
    Ok(bytes)
}
