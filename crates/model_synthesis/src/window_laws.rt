ghost use Rattle.model_synthesis.specs.WindowLaws.{WindowsAreSmall, WindowsTurnRound, NeighboursShareASlope, WindowsMeet, OverlapsTurnRound, SamplesHave16Bits, SamplesAreNearest};

/// A law: no value of a window is above 1.
pub fn windows_are_small()
    ensures { WindowsAreSmall }
{}

/// A law: turned round, a window is that of the same block between the same neighbours in the other
/// order; so it is symmetric where both neighbours are alike.
pub fn windows_turn_round()
    ensures { WindowsTurnRound }
{}

/// A law: two neighbours have one slope on the sides where they meet.
pub fn neighbours_share_a_slope()
    ensures { NeighboursShareASlope }
{}

/// A law: at each frame between two neighbours one window is 1 and the other 0, or both are on one
/// slope, at mirrored places.
pub fn windows_meet()
    ensures { WindowsMeet }
{}

/// A law: halves that are turned round give, in the other order, the frames turned round.
pub fn overlaps_turn_round()
    ensures { OverlapsTurnRound }
{}

/// A law: a sample is one of 16 bits.
pub fn samples_have_16_bits()
    ensures { SamplesHave16Bits }
{}

/// A law: a sample is the nearest to its value, or the last, if the value is past all.
pub fn samples_are_nearest()
    ensures { SamplesAreNearest }
{}
