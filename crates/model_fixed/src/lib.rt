//! Arithmetic on whole numbers: rounding down, limits, and the packed numbers of codebooks.
#![tactic(auto)]

ghost use Rattle.model_fixed.specs.Fixed.{RoundsDown};

mod limits;

pub use limits::VALUE_LIMIT;

/// A shift rounds down: it gives the greatest whole number that is at most the quotient.
pub fn shift_rounds_down()
    ensures { RoundsDown }
{}
