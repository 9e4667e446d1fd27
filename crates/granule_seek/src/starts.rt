ghost use Rattle.std.specs.Prelude.{◌≡◌, ◌+◌, ◌<◌, ℕ, List, length, Some};
ghost use Rattle.std.specs.List.{slice_get};

use std::marker::Model;
use std::sync::ledger::Ledger;
use vf_outside::Steps;

/// A list of numbers, each look at which is a step.
pub trait Starts {
    ghost numbers: { Self → List ℕ };

    /// How many numbers there are. It takes no step.
    fn len(&self) -> usize
        ensures { result ≡ length (numbers self.now) };

    /// The number at place `i`, by one step. It is the only way to a number.
    fn at<L: Ledger>(&self, i: usize, steps: &mut Steps<L>) -> u64
        requires { i < length (numbers self.now) }
        ensures number { slice_get (numbers self.now) i ≡ Some result }
        ensures step { steps.new ≡ steps.old + 1 };
}

/// The number at place `i`.
fn number_at(numbers: &[u64], i: usize) -> u64
    requires { i < length numbers.now }
    ensures { slice_get numbers.now i ≡ Some result }
{
    numbers[i]
}

/// The numbers of a slice.
#[derive(Debug, Drop)]
pub struct SliceStarts<'a> {
    starts: &'a [u64],
}

impl<'a> Model for SliceStarts<'a> {
    ghost use Rattle.std.specs.Prelude.{ℕ, List};

    ghost Value = { List ℕ };

    ghost view = { λ s. s.starts.now };
}

impl<'a> SliceStarts<'a> {
    /// The list of these numbers.
    pub fn new(starts: &'a [u64]) -> Self
        ensures { result ≡ starts.now }
    {
        SliceStarts { starts }
    }
}

impl Starts for SliceStarts<'_> {
    ghost numbers = { λ s. s };

    fn len(&self) -> usize {
        self.starts.len()
    }

    fn at<L: Ledger>(&self, i: usize, steps: &mut Steps<L>) -> u64 {
        steps.tick();
        number_at(self.starts, i)
    }
}
