//! Scripts: which commands a player is told, in which lanes; why a script is refused; and what is
//! written of the answers to its commands.
#![tactic(auto)]

mod command;
mod counts;
mod fault;
mod laws;
mod limits;

pub use command::{Answer, Command, Line, Verb};
pub use counts::{Counts, LEAST_SETUPS, LEAST_SLOTS, MOST_HELPERS, MOST_SETUPS, MOST_SLOTS};
pub use fault::{LineCause, ScriptFault, Which};
pub use laws::numbers_are_written;
pub use limits::{GREATEST_CURSOR, GREATEST_READ, LINE_FEED, MOST_FRAMES, MOST_LANES, SPACE};
