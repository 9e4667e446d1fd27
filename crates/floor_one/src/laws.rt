ghost use Rattle.floor_one.specs.CurveLaws.{CurveMeetsPoints};

/// A law: the curve goes through each flagged point (Vorbis I, section 7.2.4, step 2).
pub fn curve_meets_points()
    ensures { CurveMeetsPoints }
{}
