ghost use Rattle.std.specs.Prelude.{◌≡◌, ◌≤◌, None, length, map};
ghost use Rattle.model_line.specs.Trim.{marks, front_cut, end_cut, no_mark, beyond, NeverMeet, AtEdge};
ghost use Rattle.model_line.specs.Lines.{link_cuts};
ghost use Rattle.model_line.specs.Origins.{frame_numbers, entry_of};
ghost use Rattle.film_index.specs.Bounds.{FitSizes};

use crate::walk::{Sizes, Walk};
use model_line::{Cuts, MOST_ENTRIES, Marked, Rows, Stretch};

/// How many frames are cut off at the front of a link.
fn front_cut(sizes: Sizes, rows: &Rows) -> u64
    requires sizes { FitSizes sizes }
    requires few { length rows.now ≤ MOST_ENTRIES }
    ensures { result ≡ front_cut
        (marks frame_numbers 0 None (map (entry_of sizes.short sizes.long) rows.now)) }
{
    let mut walk = Walk::start();
    for row in rows.iter() {
        walk.pass(sizes, row.kind);
        if let Some(mark) = row.mark {
            return if mark.last {
                0
            } else {
                walk.frames.saturating_sub(mark.granule)
            };
        }
    }
    0
}

/// The last of the frames between two marks, those beyond what the granule positions allow.
fn beyond(before: &Marked, mark: &Marked) -> Stretch
    ensures { result ≡ beyond before.now mark.now }
{
    let given = mark.frames.saturating_sub(before.frames);
    let allowed = mark.granule.saturating_sub(before.granule);
    Stretch {
        from: mark.frames.saturating_sub(given.saturating_sub(allowed)),
        to: mark.frames,
    }
}

/// Which frames are cut off at the end of a link.
fn end_cut(sizes: Sizes, rows: &Rows) -> Stretch
    requires sizes { FitSizes sizes }
    requires few { length rows.now ≤ MOST_ENTRIES }
    ensures { result ≡ end_cut no_mark
        (marks frame_numbers 0 None (map (entry_of sizes.short sizes.long) rows.now)) }
{
    let mut walk = Walk::start();
    let mut before = Marked {
        granule: 0,
        last: false,
        frames: 0,
    };
    for row in rows.iter() {
        walk.pass(sizes, row.kind);
        if let Some(mark) = row.mark {
            let marked = Marked {
                granule: mark.granule,
                last: mark.last,
                frames: walk.frames,
            };
            if mark.last {
                return beyond(&before, &marked);
            }
            before = marked;
        }
    }
    Stretch {
        from: before.frames,
        to: before.frames,
    }
}

/// Which frames of a link are cut off. The cut at the end ends with an entry.
#[tactic(auto, unfolding(model_line::specs::Lines::link_cuts))]
pub fn cuts(sizes: Sizes, rows: &Rows) -> Cuts
    requires sizes { FitSizes sizes }
    requires few { length rows.now ≤ MOST_ENTRIES }
    ensures cuts { result
        ≡ link_cuts frame_numbers (map (entry_of sizes.short sizes.long) rows.now) }
    ensures apart { NeverMeet result }
    ensures edge { AtEdge frame_numbers result.end.to 0 None
        (map (entry_of sizes.short sizes.long) rows.now) }
{
    Cuts {
        front: front_cut(sizes, rows),
        end: end_cut(sizes, rows),
    }
}
