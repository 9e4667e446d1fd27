//! Definitions of a synthesis in whole numbers: the constants that it works with and their file;
//! what it makes of residues and curves: coupling, spectra, and the transform; windows, the overlap
//! of neighbouring blocks, and samples.
#![tactic(auto)]

mod constants;
mod laws;
mod limits;
mod samples;
mod window_form;
mod window_laws;

pub use constants::{
    CONSTANTS_SIZE, CONSTANTS_WORD, COSINE_COUNT, ConstantsFault, DECIBEL_COUNT, GREATEST_DECIBEL,
    SCALE, SLOPE_COUNT, SMALLEST_SLOPE,
};
pub use laws::{
    cosq_changes_its_sign, cosq_is_even, cosq_returns, coupling_is_undone,
    fourth_quarter_turns_third, second_quarter_turns_first,
};
pub use limits::{BLOCK_LIMIT, SHAPE_SHIFT, SPECTRUM_LIMIT};
pub use samples::SAMPLE_SHIFT;
pub use window_form::WindowForm;
pub use window_laws::{
    neighbours_share_a_slope, overlaps_turn_round, samples_are_nearest, samples_have_16_bits,
    windows_are_small, windows_meet, windows_turn_round,
};
