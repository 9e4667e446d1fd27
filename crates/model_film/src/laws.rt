ghost use Rattle.model_film.specs.Laws.{LinksOfFilms, BlocksAreWhole, BlocksAreSmall, LineByItems, CountsAgree, FactsAgree, LineByOrigins, SpansFitHalves};

/// Every link of an accepted film has channels and blocks of right sizes, and its modes name
/// mappings of all its channels.
pub fn links_of_films()
    ensures { LinksOfFilms }
{}

/// The block of a packet has all channels of its link, each as long as blocks of its mode are.
pub fn blocks_are_whole()
    ensures { BlocksAreWhole }
{}

/// All values of a film's blocks are within their limit.
pub fn blocks_are_small()
    ensures { BlocksAreSmall }
{}

/// Items that list the origins of a film's line give, from single halves of its blocks, the trimmed
/// linear decode of every link, one after the other: the line.
pub fn line_by_items()
    ensures { LineByItems }
{}

/// The same items count the line's frames and gaps, and their starts are the frames before them.
pub fn counts_agree()
    ensures { CountsAgree }
{}

/// The facts of a link count the frames and the gaps of its line.
pub fn facts_agree()
    ensures { FactsAgree }
{}

/// The line is that by origins, each frame made of the halves of the two blocks that its origin
/// names.
pub fn line_by_origins()
    ensures { LineByOrigins }
{}

/// The halves that a span of a film's index needs are of blocks of its link, and its frames are
/// among those that they give.
pub fn spans_fit_halves()
    ensures { SpansFitHalves }
{}
