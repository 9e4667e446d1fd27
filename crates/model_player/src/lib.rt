//! What the player program answers: the commands of its words, its lines, its limits, and its
//! statuses with their causes.
#![tactic(auto)]

mod limits;
mod status;

pub use limits::{CONSTANTS_LIMIT, FILM_LIMIT, SCRIPT_LIMIT};
pub use status::Status;
