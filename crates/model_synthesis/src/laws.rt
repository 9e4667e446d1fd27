ghost use Rattle.model_synthesis.specs.CosineLaws.{CosqIsEven, CosqChangesItsSign, CosqReturns};
ghost use Rattle.model_synthesis.specs.SynthesisLaws.{CouplingIsUndone, SecondQuarterTurnsFirst, FourthQuarterTurnsThird};

/// A law: the cosine of an odd number of steps stays the same where they are counted backwards.
pub fn cosq_is_even()
    ensures { CosqIsEven }
{}

/// A law: half a turn on, the cosine has the other sign.
pub fn cosq_changes_its_sign()
    ensures { CosqChangesItsSign }
{}

/// A law: whole turns on, the cosine is the same.
pub fn cosq_returns()
    ensures { CosqReturns }
{}

/// A law: two values are what their magnitude and their angle are taken apart into.
pub fn coupling_is_undone()
    ensures { CouplingIsUndone }
{}

/// A law: before their division, a block's sums of the second quarter are those of the first,
/// turned round and with their signs changed.
pub fn second_quarter_turns_first()
    ensures { SecondQuarterTurnsFirst }
{}

/// A law: before their division, a block's sums of the fourth quarter are those of the third,
/// turned round.
pub fn fourth_quarter_turns_third()
    ensures { FourthQuarterTurnsThird }
{}
