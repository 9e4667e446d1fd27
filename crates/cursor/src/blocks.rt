ghost use Rattle.std.specs.Prelude.{◌≡◌, ◌+◌, ◌<◌, ◌≤◌, ℕ, ℤ, List, length, map, IfOk, OnOk};
ghost use Rattle.std.specs.List.{All};
ghost use Rattle.model_cursor.specs.declared.need.Need.{Need};

use lap_window::HalfBlock;
use memory::{NoMemory, Sequence};
use model_cursor::Need;
use std::alloc::Global;

/// Halves of blocks, in the order of a plan.
pub type Halves = Sequence<HalfBlock>;

/// Where a cursor gets the halves of a film's blocks. What they are no call changes.
pub trait Blocks {
    /// How many blocks there are.
    ghost count: { Self → ℕ };

    /// What each half is.
    ghost half_of: { Self → Need → List (List ℤ) };

    /// How many fetches were made.
    ghost fetches: { Self → ℕ };

    /// The half that is needed. Each call counts as a fetch, whatever it answers.
    fn fetch(&mut self, alloc: Global, need: Need) -> Result<HalfBlock, NoMemory>
        requires { need.block < count self.old }
        ensures half { IfOk result (λ half. half ≡ half_of self.old need) }
        ensures count { count self.new ≡ count self.old }
        ensures same { (any : Need) → half_of self.new any ≡ half_of self.old any }
        ensures fetched { fetches self.new ≡ fetches self.old + 1 };
}

/// Fetches what is needed, in order.
pub fn fetch_all<B: Blocks>(
    alloc: Global,
    blocks: &mut B,
    needs: &[Need],
) -> Result<Halves, NoMemory>
    requires { All (λ need. need.block < B.count blocks.old) needs.now }
    ensures halves { IfOk result (λ halves. halves ≡ map (B.half_of blocks.old) needs.now) }
    ensures count { B.count blocks.new ≡ B.count blocks.old }
    ensures same { (any : Need) → B.half_of blocks.new any ≡ B.half_of blocks.old any }
    ensures fetched { OnOk result
        (B.fetches blocks.new ≡ B.fetches blocks.old + length needs.now) }
    ensures most { B.fetches blocks.new ≤ B.fetches blocks.old + length needs.now }
{
    let mut halves = Vec::new(alloc);
    for need in needs {
        halves.push(blocks.fetch(alloc, *need)?)?;
    }
    Ok(Sequence::of(halves))
}
