ghost use Rattle.model_cursor.specs.Laws.{RunsAreLongest, ReadsGoOn, RunsGoOnBehindPatches, SeeksGoToTheLeastPlace, SeeksByOrigins, StatesStayCursors};
ghost use Rattle.model_cursor.specs.SpliceLaws.{WeightsAreParts, MixedLiesBetween, EqualSidesStay, SplicesFitTheRun, SplicesKeepChannels, SplicesLieBetween, SplicedStayCursors, LapsGoWhereSeeksGo, LapsWithoutSplicesAreSeeks};

/// The run at a place is the longest list of frames of one link that begins there.
pub fn runs_are_longest()
    ensures { RunsAreLongest }
{}

/// What a read after a read gives is what one read would give behind the frames of the first.
pub fn reads_go_on()
    ensures { ReadsGoOn }
{}

/// Behind a patch reads give the frames of the run, as they are.
pub fn runs_go_on_behind_patches()
    ensures { RunsGoOnBehindPatches }
{}

/// A seek goes to the least place with so many frames before it.
pub fn seeks_go_to_the_least_place()
    ensures { SeeksGoToTheLeastPlace }
{}

/// Reads and seeks leave a cursor at a place of the line, with a patch no longer than its run.
pub fn states_stay_cursors()
    ensures { StatesStayCursors }
{}

/// Seeks and tells are those of the line by origins, whatever its frames are.
pub fn seeks_by_origins()
    ensures { SeeksByOrigins }
{}

/// The weight of the new side in a mixed value is at most one whole.
pub fn weights_are_parts()
    ensures { WeightsAreParts }
{}

/// A mixed value lies between the two that it is made of.
pub fn mixed_lies_between()
    ensures { MixedLiesBetween }
{}

/// Two equal values are mixed to the same one.
pub fn equal_sides_stay()
    ensures { EqualSidesStay }
{}

/// A splice has as many frames as are mixed, and no more than the run at the new place has.
pub fn splices_fit_the_run()
    ensures { SplicesFitTheRun }
{}

/// Each frame of a splice has as many values as the one that it stands for.
pub fn splices_keep_channels()
    ensures { SplicesKeepChannels }
{}

/// Each value of a splice lies between the one that would have been heard next and the one of the
/// run at the new place.
pub fn splices_lie_between()
    ensures { SplicesLieBetween }
{}

/// Laps and crosses leave a cursor at a place of the line, with a patch no longer than its run.
pub fn spliced_stay_cursors()
    ensures { SplicedStayCursors }
{}

/// A lap answers what a seek answers, and the cursor stands where a seek puts it.
pub fn laps_go_where_seeks_go()
    ensures { LapsGoWhereSeeksGo }
{}

/// A lap that finds nothing to splice is a seek.
pub fn laps_without_splices_are_seeks()
    ensures { LapsWithoutSplicesAreSeeks }
{}
