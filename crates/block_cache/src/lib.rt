//! Errands: a half of a block, got in turns, each of which is one event of a bank. The block is
//! copied where a bank has it, and decoded where none has.
#![tactic(auto)]

mod errand;
mod facts;
mod maker;
mod stage;
mod turn;
mod works;

pub use errand::{Errand, Wish};
pub use facts::{BlocksOf, SetupsOf};
pub use film_blocks::{Block, Half, HalfBlock, NoMemory, Reel, Setup};
pub use maker::{Maker, ReelMaker};
pub use model_replay::{Event, How};
pub use stage::Stage;
pub use turn::Turn;
pub use works::{ReelWorks, Works, WorksMaker};
