//! Reads scripts of commands, and writes what is answered to each command.
#![tactic(auto)]

mod answers;
mod lines;
mod reading;
mod samples;
mod script;
mod words;

pub use answers::reply_text;
pub use model_script::{
    Answer, Command, GREATEST_CURSOR, GREATEST_READ, LineCause, MOST_FRAMES, MOST_LANES,
    ScriptFault, Which,
};
pub use script::Script;
pub use words::number;

#[cfg(test)]
mod tests;
