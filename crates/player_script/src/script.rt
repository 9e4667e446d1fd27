ghost use Rattle.std.specs.Prelude.{◌≡◌, ◌<◌, ◌^◌, length, slice_get, Some};
ghost use Rattle.std.specs.List.{All};
ghost use Rattle.memory.specs.Answers.{Answers};
ghost use Rattle.model_script.specs.Scripts.{AreLanes, IsRight, first_refusal, lanes_unless, said, script_of, without_last_feed};
ghost use Rattle.player_script.specs.Steps.{worded};

use crate::reading::{Lane, Reading};
use model_script::{Command, LINE_FEED, ScriptFault};
use std::alloc::Global;
use std::marker::Model;

/// What players are told: lanes, each of commands in order. Contracts see the list of the lanes,
/// each as the list of its commands.
#[derive(Debug, Drop)]
pub struct Script {
    lanes: Vec<Lane>,
}

impl Model for Script {
    ghost use Rattle.std.specs.Prelude.{List};
    ghost use Rattle.model_script.specs.declared.command.Command.{Command};
    ghost use Rattle.model_script.specs.Scripts.{AreLanes};

    ghost Value = { List (List Command) };

    ghost view = { λ s. s.lanes.items };

    ghost invariant = { λ s. AreLanes s.lanes.items };
}

/// A script without the line feed at its end, if one is there.
fn without_last_feed(bytes: &[u8]) -> &[u8]
    ensures { result.now ≡ without_last_feed bytes.now }
{
    bytes.strip_suffix(&[LINE_FEED]).unwrap_or(bytes)
}

/// Reads lines, each parted from the next by a line feed.
fn read_lines(alloc: Global, text: &[u8]) -> Result<Script, ScriptFault>
    requires { length (worded text.now) < 2 ^ 32 }
    ensures { Answers ScriptFault.Memory (λ script. script) result
        (lanes_unless (said (worded text.now)) (first_refusal (worded text.now))) }
{
    let mut reading = Reading::new(alloc);
    let mut number = 0;
    for line in text.split(|byte| *byte == LINE_FEED) {
        number += 1;
        reading.read(alloc, line, number)?;
    }
    Ok(Script {
        lanes: reading.lanes,
    })
}

impl Script {
    /// Reads a script, or finds the first cause why it is refused.
    pub fn read(alloc: Global, bytes: &[u8]) -> Result<Script, ScriptFault>
        requires { length bytes.now < 2 ^ 32 }
        ensures { Answers ScriptFault.Memory (λ script. script) result (script_of bytes.now) }
    {
        if bytes.is_empty() {
            return Ok(Script {
                lanes: Vec::new(alloc),
            });
        }
        read_lines(alloc, without_last_feed(bytes))
    }

    /// How many lanes there are.
    pub fn lanes(&self) -> u32
        ensures count { result ≡ length self.now }
        ensures right { AreLanes self.now }
    {
        self.lanes.len() as u32
    }

    /// The commands of the lane of this number, from 0.
    pub fn commands(&self, lane: u32) -> &[Command]
        requires { lane < length self.now }
        ensures commands { slice_get self.now lane ≡ Some result.now }
        ensures right { All IsRight result.now }
    {
        self.lanes[lane as usize].items()
    }
}
