//! Runs the player's commands.
#![tactic(auto)]

mod command;
mod dump;
mod files;
mod info;
mod notes;
mod output;
mod play;
mod stops;
mod texts;
mod top;
mod trial;
mod trial_texts;

pub use model_line::{FilmFault, LinkCounts, LinkFacts, MOST_CHANNELS, MOST_ENTRIES};
pub use model_player::{CONSTANTS_LIMIT, FILM_LIMIT, SCRIPT_LIMIT, Status};
pub use model_synthesis::ConstantsFault;
pub use player_script::{LineCause, ScriptFault, Which};
pub use top::{player, player_alone};
