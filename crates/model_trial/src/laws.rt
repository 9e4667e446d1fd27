ghost use Rattle.model_trial.specs.Laws.{MadeConstantsAreAccepted, MadeSetupsAreRead, MadeHeadersAreAccepted};
ghost use Rattle.model_trial.specs.MadeScript.{ScriptsReadBack, MadeScriptsAreAccepted};

/// A law: the made constants are accepted, and these are their tables.
pub fn made_constants_are_accepted()
    ensures { MadeConstantsAreAccepted }
{}

/// A law: the made setups are read from the bits in which they are written.
pub fn made_setups_are_read()
    ensures { MadeSetupsAreRead }
{}

/// A law: a script that is written of lanes as a script may have them is read as these lanes.
pub fn scripts_read_back()
    ensures { ScriptsReadBack }
{}

/// A law: the made script of every number is accepted, and its lanes are those that were drawn.
pub fn made_scripts_are_accepted()
    ensures { MadeScriptsAreAccepted }
{}

/// A law: the header packets of each link of a made film are accepted, and say what the link has.
pub fn made_headers_are_accepted()
    ensures { MadeHeadersAreAccepted }
{}
