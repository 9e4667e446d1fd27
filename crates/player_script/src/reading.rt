ghost use Rattle.std.specs.Prelude.{◌≡◌, ◌≢◌, ◌<◌, ◌≤◌, ◌+◌, ◌-◌, [], ◌∷◌, ◌++◌, length, vec_len, nat_lt, None, Some, OnOk, MatchResult, true};
ghost use Rattle.std.specs.List.{All};
ghost use Rattle.memory.specs.Answers.{Answers};
ghost use Rattle.model_script.specs.declared.limits.TheConstants.{MOST_LANES, MOST_FRAMES};
ghost use Rattle.model_script.specs.declared.command.Line.{Line};
ghost use Rattle.model_script.specs.Lines.{line_of, words_of};
ghost use Rattle.model_script.specs.Scripts.{IsRight, AreLanes, frames_of};
ghost use Rattle.player_script.specs.Steps.{IsRightLine, lanes_with, limit_by, refusal_by};

use crate::lines::line;
use memory::Sequence;
use model_script::{Command, Line, MOST_FRAMES, MOST_LANES, ScriptFault, Which};
use std::alloc::Global;

/// The commands of a lane.
pub type Lane = Sequence<Command>;

/// The lanes that lines have begun, and how many frames their reads ask for.
#[derive(Drop)]
pub struct Reading {
    pub lanes: Vec<Lane>,
    pub frames: u32,
}

/// How many frames a command asks for.
fn frames_of(command: Command) -> u32
    ensures { result ≡ frames_of (Line.Gives command) }
{
    match command {
        Command::Read { c: _, n } => n,
        _ => 0,
    }
}

impl Reading {
    /// Before the first line.
    pub fn new(alloc: Global) -> Self
        ensures lanes { result.lanes.items ≡ [] }
        ensures frames { result.frames ≡ 0 }
    {
        Reading {
            lanes: Vec::new(alloc),
            frames: 0,
        }
    }

    /// Begins a lane.
    fn begin(&mut self, alloc: Global, number: u32) -> Result<(), ScriptFault>
        requires lanes { AreLanes self.old.lanes.items }
        requires frames { self.old.frames ≤ MOST_FRAMES }
        ensures read { MatchResult result
            (λ _. limit_by (length self.old.lanes.items) self.old.frames Line.Lane number ≡ None)
            (λ fault. fault ≢ ScriptFault.Memory
            → limit_by (length self.old.lanes.items) self.old.frames Line.Lane number
            ≡ Some fault) }
        ensures lanes { OnOk result (self.new.lanes.items ≡ self.old.lanes.items ++ [] ∷ []) }
        ensures frames { OnOk result (self.new.frames ≡ self.old.frames) }
        ensures right { OnOk result (AreLanes self.new.lanes.items) }
    {
        if self.lanes.len() as u32 == MOST_LANES {
            return Err(ScriptFault::Limit {
                which: Which::Lanes,
                number,
            });
        }
        self.lanes.push(Lane::new(alloc))?;
        Ok(())
    }

    /// Gives the last lane a command.
    fn give(&mut self, command: Command, number: u32) -> Result<(), ScriptFault>
        requires begun { 0 < vec_len self.old.lanes }
        requires lanes { AreLanes self.old.lanes.items }
        requires frames { self.old.frames ≤ MOST_FRAMES }
        requires right { IsRight command }
        ensures read { MatchResult result
            (λ _. limit_by (length self.old.lanes.items) self.old.frames (Line.Gives command) number
            ≡ None)
            (λ fault. fault ≢ ScriptFault.Memory
            → limit_by (length self.old.lanes.items) self.old.frames (Line.Gives command) number
            ≡ Some fault) }
        ensures lanes { OnOk result
            (self.new.lanes.items ≡ lanes_with self.old.lanes.items (Line.Gives command)) }
        ensures frames { OnOk result
            (self.new.frames ≡ self.old.frames + frames_of (Line.Gives command)) }
        ensures most { OnOk result (self.new.frames ≤ MOST_FRAMES) }
        ensures still { OnOk result (AreLanes self.new.lanes.items) }
    {
        let frames = frames_of(command);
        if frames > MOST_FRAMES - self.frames {
            return Err(ScriptFault::Limit {
                which: Which::Frames,
                number,
            });
        }
        self.frames += frames;
        if let Some(lane) = self.lanes.last_mut() {
            lane.push(command)?;
        }
        Ok(())
    }

    /// Adds what a line of this number says.
    fn add(&mut self, alloc: Global, line: Line, number: u32) -> Result<(), ScriptFault>
        requires begun { line ≢ Line.Lane → 0 < vec_len self.old.lanes }
        requires lanes { AreLanes self.old.lanes.items }
        requires frames { self.old.frames ≤ MOST_FRAMES }
        requires right { IsRightLine line }
        ensures read { MatchResult result
            (λ _. limit_by (length self.old.lanes.items) self.old.frames line number ≡ None)
            (λ fault. fault ≢ ScriptFault.Memory
            → limit_by (length self.old.lanes.items) self.old.frames line number ≡ Some fault) }
        ensures lanes { OnOk result
            (self.new.lanes.items ≡ lanes_with self.old.lanes.items line) }
        ensures frames { OnOk result (self.new.frames ≡ self.old.frames + frames_of line) }
        ensures most { OnOk result (self.new.frames ≤ MOST_FRAMES) }
        ensures still { OnOk result (AreLanes self.new.lanes.items) }
    {
        match line {
            Line::Lane => self.begin(alloc, number),
            Line::Gives { command } => self.give(command, number),
        }
    }

    /// Reads the line of this number.
    pub fn read(&mut self, alloc: Global, bytes: &[u8], number: u32) -> Result<(), ScriptFault>
        requires lanes { AreLanes self.old.lanes.items }
        requires frames { self.old.frames ≤ MOST_FRAMES }
        ensures read { MatchResult result
            (λ _. refusal_by (length self.old.lanes.items) self.old.frames (words_of bytes.now)
            number ≡ None)
            (λ fault. fault ≢ ScriptFault.Memory → refusal_by (length self.old.lanes.items)
            self.old.frames (words_of bytes.now) number ≡ Some fault) }
        ensures says { OnOk result ((line : Line) × (line_of (words_of bytes.now) ≡ Some line)
            × (self.new.lanes.items ≡ lanes_with self.old.lanes.items line)
            × (self.new.frames ≡ self.old.frames + frames_of line)) }
        ensures most { OnOk result (self.new.frames ≤ MOST_FRAMES) }
        ensures still { OnOk result (AreLanes self.new.lanes.items) }
    {
        match line(bytes, !self.lanes.is_empty()) {
            Ok(line) => self.add(alloc, line, number),
            Err(cause) => Err(ScriptFault::Line { number, cause }),
        }
    }
}
