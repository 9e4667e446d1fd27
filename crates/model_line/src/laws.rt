ghost use Rattle.model_line.specs.Laws.{CutsApart, GapsStay, FramesGo, StartsNeverFall, SpansAddUp, GapsAreMissing, SpansFit, SpansOfLinks, OneIndex, LineByHalves, LineByIndex, BlocksAreCounted};

/// The cuts at the front and at the end of a link never meet, and end within it.
pub fn cuts_apart()
    ensures { CutsApart }
{}

/// No gap of a link is cut off.
pub fn gaps_stay()
    ensures { GapsStay }
{}

/// As many frames of a link are cut off as the two cuts have.
pub fn frames_go()
    ensures { FramesGo }
{}

/// The starts of items never fall.
pub fn starts_never_fall()
    ensures { StartsNeverFall }
{}

/// All spans of an index together have as many frames as the line.
pub fn spans_add_up()
    ensures { SpansAddUp }
{}

/// A link has as many gaps as losses and bad packets after its headers, and so has an index.
pub fn gaps_are_missing()
    ensures { GapsAreMissing }
{}

/// The spans of an index lie within the frames that their blocks give.
pub fn spans_fit()
    ensures { SpansFit }
{}

/// Both blocks of a span of an index are of its link.
pub fn spans_of_links()
    ensures { SpansOfLinks }
{}

/// No two indexes of a film have other items.
pub fn one_index()
    ensures { OneIndex }
{}

/// Items that list a line give, from single halves of blocks, the trimmed linear decode of every
/// link, whatever its blocks hold.
pub fn line_by_halves()
    ensures { LineByHalves }
{}

/// The items of an index give, from single halves of blocks, the trimmed linear decode of every
/// link, whatever blocks of its sizes its entries decode to.
pub fn line_by_index()
    ensures { LineByIndex }
{}

/// An index counts as many blocks as packets of the film decode to one.
pub fn blocks_are_counted()
    ensures { BlocksAreCounted }
{}
