//! Floors of type 1: the curves by which a packet's spectrum is shaped (Vorbis I, section 7).
#![tactic(auto)]

mod class;
mod curve;
mod decoding;
mod fields;
mod finals;
mod floor;
mod laws;
mod points;

pub use finals::{Finals, Floored};
pub use floor::Floor;
pub use laws::curve_meets_points;
pub use model_setup::{Final, FloorFault};
