//! Cursors on a film's line: each starts anywhere, tells where it is by the film's index alone,
//! reads frames, and goes over from one place to another without a click.
#![tactic(auto)]

mod blocks;
mod frames;
mod laps;
mod mix;
mod patch;
mod place;
mod portions;
mod position;
mod tasks;
#[cfg(test)]
mod tests;

pub use blocks::{Blocks, Halves};
pub use lap_window::HalfBlock;
pub use model_cursor::{Frames, Need, Needs, Reply, Sought, Task};
pub use position::Cursor;
