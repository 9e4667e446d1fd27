ghost use Rattle.std.specs.Prelude.{◌≡◌, IfOk};
ghost use Rattle.model_report.specs.Reports.{report_of};
ghost use Rattle.script_playing.specs.Playing.{CanBePlayed};

use crate::lane::{Text, lane_text};
use film_blocks::Reel;
use memory::{NoMemory, Sequence};
use model_script::Counts;
use player_script::Script;
use std::alloc::Global;
use vf_outside::Gate;

/// What a script's commands are answered: the text of each lane, in order.
pub type Report = Sequence<Text>;

/// Plays a script over a film: the report is what one cursor after the other answers from the whole
/// line of the film, whatever the counts of helpers and slots are. The lanes are played one after
/// the other, so that the counts and the gate wait for threads.
///
/// # Errors
///
/// Only where no memory was found.
pub fn play<G: Gate>(
    alloc: Global,
    reel: &Reel,
    script: &Script,
    _counts: Counts,
    _gate: &G,
) -> Result<Report, NoMemory>
    requires { CanBePlayed reel.now.constants reel.now.film.links reel.now.film.index }
    ensures { IfOk result (λ report. report
        ≡ report_of reel.now.constants reel.now.film.links script.now) }
{
    let mut texts = Vec::new(alloc);
    for lane in 0..script.lanes() {
        texts.push(lane_text(alloc, reel, lane, script.commands(lane))?)?;
    }
    Ok(Report::of(texts))
}
