//! Plays scripts over a film: answers the commands of each lane, with halves of blocks that are
//! decoded where they are needed.
#![tactic(auto)]

mod answers;
mod crosses;
mod lane;
mod lanes;
mod plain;

pub use film_blocks::{Constants, Film, Reel};
pub use lane::Text;
pub use lanes::{Report, play};
pub use memory::NoMemory;
pub use model_script::Counts;
pub use plain::PlainBlocks;
pub use player_script::Script;
