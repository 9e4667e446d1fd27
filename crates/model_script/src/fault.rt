ghost use Rattle.std.specs.Prelude.{◌≡◌};
ghost use Rattle.model_script.specs.declared.fault.ScriptFault.TheVariants.{Memory};

use memory::NoMemory;
use std::alloc::{AllocError, AllocFailed};
use std::error::Error;
use std::fmt;

/// Why a line of a script is refused: the first of these that there is.
#[derive(Clone, Copy, Debug, PartialEq, Eq)]
pub enum LineCause {
    /// Its first word is unknown, or it is empty.
    Word,
    /// It is a command, and no lane has begun.
    NoLane,
    /// It has too few words, or too many.
    Count,
    /// A word that should be a number is not plain decimal, has a leading zero, or is above
    /// 2^64 - 1.
    Number,
    /// A number is out of its range.
    Range,
}

/// A limit on all lines together.
#[derive(Clone, Copy, Debug, PartialEq, Eq)]
pub enum Which {
    /// The lanes of a script, `MOST_LANES`.
    Lanes,
    /// The frames that all reads of a script ask for, `MOST_FRAMES`.
    Frames,
    /// The turns of a schedule.
    Turns,
}

/// Why a script is refused.
#[derive(Clone, Copy, Debug, PartialEq, Eq)]
pub enum ScriptFault {
    /// The line of this number, from 1, is refused by this cause.
    Line { number: u32, cause: LineCause },
    /// The line of this number, from 1, passes this limit.
    Limit { which: Which, number: u32 },
    /// No memory was found.
    Memory,
}

impl fmt::Display for LineCause {
    ghost use Rattle.std.specs.Prelude.{Some};
    ghost use Rattle.model_script.specs.Texts.{cause_word};

    ghost output = { λ s. Some (cause_word s) };

    fn fmt<W: fmt::Write>(&self, f: &mut fmt::Formatter<W>) -> fmt::Result {
        match *self {
            LineCause::Word => write!(f, "word"),
            LineCause::NoLane => write!(f, "no-lane"),
            LineCause::Count => write!(f, "count"),
            LineCause::Number => write!(f, "number"),
            LineCause::Range => write!(f, "range"),
        }
    }
}

impl fmt::Display for Which {
    ghost use Rattle.std.specs.Prelude.{Some};
    ghost use Rattle.model_script.specs.Texts.{limit_word};

    ghost output = { λ s. Some (limit_word s) };

    fn fmt<W: fmt::Write>(&self, f: &mut fmt::Formatter<W>) -> fmt::Result {
        match *self {
            Which::Lanes => write!(f, "lanes"),
            Which::Frames => write!(f, "frames"),
            Which::Turns => write!(f, "turns"),
        }
    }
}

impl fmt::Display for ScriptFault {
    ghost use Rattle.std.specs.Prelude.{Some};
    ghost use Rattle.model_script.specs.Texts.{fault_text};

    ghost output = { λ s. Some (fault_text s) };

    fn fmt<W: fmt::Write>(&self, f: &mut fmt::Formatter<W>) -> fmt::Result {
        match *self {
            ScriptFault::Line { number, cause } => write!(f, "script line {number} {cause}"),
            ScriptFault::Limit { which, number } => write!(f, "script line {number} {which}"),
            ScriptFault::Memory => write!(f, "memory"),
        }
    }
}

impl Error for ScriptFault {}

impl From<NoMemory> for ScriptFault {
    ghost from_gives = { λ _ fault. fault ≡ Memory };

    fn from(_: NoMemory) -> Self {
        ScriptFault::Memory
    }
}

impl From<AllocError> for ScriptFault {
    ghost from_gives = { λ _ fault. fault ≡ Memory };

    fn from(_: AllocError) -> Self {
        ScriptFault::Memory
    }
}

impl<T: Drop> From<AllocFailed<T>> for ScriptFault {
    ghost from_gives = { λ _ fault. fault ≡ Memory };

    fn from(_: AllocFailed<T>) -> Self {
        ScriptFault::Memory
    }
}
