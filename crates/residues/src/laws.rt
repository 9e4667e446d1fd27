ghost use Rattle.residues.specs.ResidueLaws.{NothingOutsideTheRange, UnwantedStaysSilent, NoneWantedStaysSilent};

/// A law: a residue adds nothing to a vector before its begin, and nothing from its end on. Vectors
/// that are interleaved are one vector here (Vorbis I, section 8.6.2).
pub fn nothing_outside_the_range()
    ensures { NothingOutsideTheRange }
{}

/// A law: of vectors that are decoded each by itself, one that is not wanted stays zero (Vorbis I,
/// section 8.6.2).
pub fn unwanted_stays_silent()
    ensures { UnwantedStaysSilent }
{}

/// A law: where no vector is wanted, all stay zero, and no bit is read; also those that are
/// interleaved (Vorbis I, sections 8.6.2 and 8.6.5).
pub fn none_wanted_stays_silent()
    ensures { NoneWantedStaysSilent }
{}
