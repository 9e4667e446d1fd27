//! The made inputs: constants, setups, scripts and films that follow from a number, as functions of
//! the words of its generator; and what of them is accepted.
#![tactic(auto)]

mod laws;
mod numbers;

pub use laws::{
    made_constants_are_accepted, made_headers_are_accepted, made_scripts_are_accepted,
    made_setups_are_read, scripts_read_back,
};
pub use numbers::{
    MADE_COMMANDS, MADE_LANES, MADE_LONG, MADE_PACKETS, MADE_SHORT, PACKETS_ON_PAGE,
};
