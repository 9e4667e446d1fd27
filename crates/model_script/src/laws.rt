ghost use Rattle.model_script.specs.Laws.{NumbersAreWritten};

/// A word is a number where it is how a number below 2^64 is written.
pub fn numbers_are_written()
    ensures { NumbersAreWritten }
{}
