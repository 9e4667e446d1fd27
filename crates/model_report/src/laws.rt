ghost use Rattle.model_report.specs.FilmHalves.{HalvesServeCursors};
ghost use Rattle.model_report.specs.Laws.{LanesAreApart, EachHasAnAnswer, OthersStay, OpensOnce, CrossesItself, CrossesOpenOnes};

/// The halves of a film's blocks are what cursors in its index ask for, and the line that the index
/// gives with them is the film's.
pub fn halves_serve_cursors()
    ensures { HalvesServeCursors }
{}

/// The text of a lane is that of its number and its own commands, whatever the other lanes are.
pub fn lanes_are_apart()
    ensures { LanesAreApart }
{}

/// Each command of a lane has one answer.
pub fn each_has_an_answer()
    ensures { EachHasAnAnswer }
{}

/// A command changes at most the cursor that it names, and a cross at most the new one.
pub fn others_stay()
    ensures { OthersStay }
{}

/// To open a cursor that is open changes no cursor.
pub fn opens_once()
    ensures { OpensOnce }
{}

/// To cross a cursor that is open with itself changes no cursor.
pub fn crosses_itself()
    ensures { CrossesItself }
{}

/// A cross of which a cursor isn't open changes no cursor.
pub fn crosses_open_ones()
    ensures { CrossesOpenOnes }
{}
