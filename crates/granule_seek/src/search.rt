ghost use Rattle.std.specs.Prelude.{◌≡◌, ◌+◌, ◌-◌, ◌*◌, ◌^◌, ◌≤◌, length, MatchOption};
ghost use Rattle.std.specs.List.Sorted.{IsNonDecreasing};
ghost use Rattle.granule_seek.specs.Places.{IsLastAtMost, AreAllAbove};

use crate::starts::Starts;
use std::sync::ledger::Ledger;
use vf_outside::Steps;

/// The last place of a list that never falls whose number is at most `p`, or none. It takes at most
/// as many steps as the list's length has binary digits.
pub fn last_at_most<T: Starts, L: Ledger>(starts: &T, p: u64, steps: &mut Steps<L>) -> Option<usize>
    requires { IsNonDecreasing (T.numbers starts.now) }
    ensures place { MatchOption result
        (AreAllAbove (T.numbers starts.now) p) (IsLastAtMost (T.numbers starts.now) p) }
    ensures later { steps.old ≤ steps.new }
    ensures cost { 2 ^ (steps.new - steps.old) ≤ 2 * length (T.numbers starts.now) + 1 }
{
    // The numbers before `low` are at most `p`, and those from `high` on are more.
    let mut low = 0;
    let mut high = starts.len();
    while low < high {
        let middle = low + (high - low) / 2;
        if starts.at(middle, steps) <= p {
            low = middle + 1;
        } else {
            high = middle;
        }
    }
    low.checked_sub(1)
}
