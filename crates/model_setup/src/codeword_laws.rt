ghost use Rattle.model_setup.specs.CodewordLaws.{BeginsByInterval, NeverBegins, RootIsGreatest};

/// Bits begin with a word's codeword exactly where the number that the next 32 bits make, highest
/// first and with zeros behind the end, is in the word's interval, and as many bits are left as
/// the codeword has.
pub fn codewords_are_intervals()
    ensures { BeginsByInterval }
{}

/// Of two words whose intervals are apart, neither codeword begins the other.
pub fn codewords_are_apart()
    ensures { NeverBegins }
{}

/// The number of values of a lookup of type 1 is the greatest whose power is no more than the
/// number of entries.
pub fn root_is_greatest()
    ensures { RootIsGreatest }
{}
