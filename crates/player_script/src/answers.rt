ghost use Rattle.std.specs.Prelude.{◌≡◌, [], ◌∷◌, ◌++◌, codes, OnOk, OnErr};
ghost use Rattle.std.specs.Fmt.{decimal};
ghost use Rattle.model_script.specs.Texts.{head_text, tail_text, frames_text, given_text, reply_line};
ghost use Rattle.player_script.specs.Bodies.{body_text};
ghost use Rattle.player_script.specs.Fronts.{IsFrontOf};

use crate::samples::write_samples;
use itoa::Buffer;
use memory::NoMemory;
use model_cursor::{Frames, Reply};
use model_line::GapKind;
use model_script::{Answer, Command, LINE_FEED};

/// Writes bytes.
fn write(bytes: &[u8], out: &mut Vec<u8>) -> Result<(), NoMemory>
    ensures ok { OnOk result (out.new.items ≡ out.old.items ++ bytes.now) }
    ensures err { OnErr result (IsFrontOf out.old.items out.new.items) }
{
    out.extend_from_slice(bytes)?;
    Ok(())
}

/// Writes bytes, and a number behind them.
fn write_number(bytes: &[u8], number: u64, out: &mut Vec<u8>) -> Result<(), NoMemory>
    ensures ok { OnOk result (out.new.items ≡ out.old.items ++ (bytes.now ++ decimal number)) }
    ensures err { OnErr result (IsFrontOf out.old.items out.new.items) }
{
    write(bytes, out)?;
    let mut digits = Buffer::new();
    write(digits.format(number).as_bytes(), out)
}

/// Writes two cursors, each behind some bytes.
fn write_cursors(first: &[u8], c: u8, d: u8, out: &mut Vec<u8>) -> Result<(), NoMemory>
    ensures ok { OnOk result (out.new.items
        ≡ out.old.items ++ (first.now ++ decimal c ++ (codes " " ++ decimal d))) }
    ensures err { OnErr result (IsFrontOf out.old.items out.new.items) }
{
    write_number(first, u64::from(c), out)?;
    write_number(b" ", u64::from(d), out)
}

/// Writes the first word of a command, and its cursors.
fn write_head(command: &Command, out: &mut Vec<u8>) -> Result<(), NoMemory>
    ensures ok { OnOk result (out.new.items ≡ out.old.items ++ head_text command.now) }
    ensures err { OnErr result (IsFrontOf out.old.items out.new.items) }
{
    match *command {
        Command::Open { c } => write_number(b"open ", u64::from(c), out),
        Command::Read { c, n: _ } => write_number(b"read ", u64::from(c), out),
        Command::Seek { c, p: _ } => write_number(b"seek ", u64::from(c), out),
        Command::Lap { c, p: _ } => write_number(b"lap ", u64::from(c), out),
        Command::Cross { c, d } => write_cursors(b"cross ", c, d, out),
        Command::Tell { c } => write_number(b"tell ", u64::from(c), out),
        Command::Close { c } => write_number(b"close ", u64::from(c), out),
    }
}

/// Writes what a command's line has behind its cursors.
fn write_tail(command: &Command, out: &mut Vec<u8>) -> Result<(), NoMemory>
    ensures ok { OnOk result (out.new.items ≡ out.old.items ++ tail_text command.now) }
    ensures err { OnErr result (IsFrontOf out.old.items out.new.items) }
{
    match *command {
        Command::Read { c: _, n } => write_number(b" ", u64::from(n), out),
        Command::Seek { c: _, p } | Command::Lap { c: _, p } => write_number(b" ", p, out),
        Command::Open { c: _ }
        | Command::Cross { c: _, d: _ }
        | Command::Tell { c: _ }
        | Command::Close { c: _ } => Ok(()),
    }
}

/// Writes frames of a link that has so many channels.
fn write_frames(link: u32, channels: u8, frames: &Frames, out: &mut Vec<u8>) -> Result<(), NoMemory>
    ensures ok { OnOk result
        (out.new.items ≡ out.old.items ++ frames_text link channels frames.now) }
    ensures err { OnErr result (IsFrontOf out.old.items out.new.items) }
{
    write_number(b" frames ", u64::from(link), out)?;
    write_number(b" ", u64::from(channels), out)?;
    write_number(b" ", frames.count() as u64, out)?;
    write(b" ", out)?;
    write_samples(frames.items(), out)
}

/// Writes what a reply's line has behind the cursor.
fn write_given(reply: &Reply, channels: u8, out: &mut Vec<u8>) -> Result<(), NoMemory>
    ensures ok { OnOk result (out.new.items ≡ out.old.items ++ given_text channels reply.now) }
    ensures err { OnErr result (IsFrontOf out.old.items out.new.items) }
{
    match reply {
        Reply::Frames { link, frames } => write_frames(*link, channels, frames, out),
        Reply::Gap {
            kind: GapKind::Lost,
        } => write(b" gap lost", out),
        Reply::Gap { kind: GapKind::Bad } => write(b" gap bad", out),
        Reply::End => write(b" end", out),
        Reply::At { place } => write_number(b" at ", *place, out),
        Reply::Invalid { total } => write_number(b" invalid total ", *total, out),
    }
}

/// Writes what the line of an answer has behind the cursor.
fn write_body(
    command: &Command,
    answer: &Answer,
    channels: u8,
    out: &mut Vec<u8>,
) -> Result<(), NoMemory>
    ensures ok { OnOk result
        (out.new.items ≡ out.old.items ++ body_text command.now answer.now channels) }
    ensures err { OnErr result (IsFrontOf out.old.items out.new.items) }
{
    match answer {
        Answer::Ok => write(b" ok", out),
        Answer::AlreadyOpen => write(b" already open", out),
        Answer::NoCursor => {
            write_tail(command, out)?;
            write(b" no cursor", out)
        }
        Answer::Told { place } => write_number(b" ", *place, out),
        Answer::Given { reply } => write_given(reply, channels, out),
    }
}

/// Writes the line of an answer to a command. Where no memory is found, a front of it is there.
#[tactic(auto, using(crate::proofs::Bodies::by_parts))]
fn write_line(
    command: &Command,
    answer: &Answer,
    channels: u8,
    out: &mut Vec<u8>,
) -> Result<(), NoMemory>
    ensures ok { OnOk result
        (out.new.items ≡ out.old.items ++ reply_line command.now answer.now channels) }
    ensures err { OnErr result (IsFrontOf out.old.items out.new.items) }
{
    write_head(command, out)?;
    write_body(command, answer, channels, out)?;
    write(&[LINE_FEED], out)
}

/// Writes the line of an answer to a command behind what `out` has. Of a reply of frames, these are
/// of a link with so many channels. Where no memory is found, `out` has what it had.
pub fn reply_text(
    command: &Command,
    answer: &Answer,
    channels: u8,
    out: &mut Vec<u8>,
) -> Result<(), NoMemory>
    ensures ok { OnOk result
        (out.new.items ≡ out.old.items ++ reply_line command.now answer.now channels) }
    ensures err { OnErr result (out.new.items ≡ out.old.items) }
{
    let before = out.len();
    let written = write_line(command, answer, channels, out);
    if written.is_err() {
        out.truncate(before);
    }
    written
}
