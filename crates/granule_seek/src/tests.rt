ghost use Rattle.std.specs.Prelude.{◌≡◌, ◌<◌};

use super::*;
use std::marker::Brand;
use std::sync::ledger::{Blank, Ledger};
use std::test::Fail;
use vf_outside::Steps;

/// What a row shows, a list, a number, and the last place whose number is at most that.
type Row = (&'static str, &'static [u64], u64, Option<usize>);

const ROWS: [Row; 9] = [
    ("an empty list has no place", &[], 7, None),
    ("the first number is more", &[1, 2], 0, None),
    ("the first number itself", &[1, 2], 1, Some(0)),
    ("between two numbers", &[0, 10, 20], 19, Some(1)),
    ("a number of the list", &[0, 10, 20], 20, Some(2)),
    ("past the last number", &[0, 10, 20], u64::MAX, Some(2)),
    (
        "the last of equal numbers",
        &[0, 32, 32, 32, 64],
        32,
        Some(3),
    ),
    ("all are equal and more", &[5, 5, 5], 4, None),
    ("all are equal and at most that", &[5, 5, 5], 5, Some(2)),
];

/// The last place whose number is at most `p`, once the numbers are in rising order.
fn place_in<L: Ledger>(blank: Blank, mut numbers: Vec<u64>, p: u64) -> Option<usize>
    requires name { blank.name ≡ L.name }
    requires parts { blank.parts ≡ L.parts }
    requires some { 0 < blank.parts }
{
    numbers.sort_unstable();
    let mut steps = Steps::<L>::new(blank);
    last_at_most(&SliceStarts::new(&numbers), p, &mut steps)
}

#[test]
fn finds_the_last_place(rt: HostRuntime) -> Result<(), Fail> {
    for (name, numbers, p, place) in ROWS {
        let found = place_in::<Brand>(Blank::new(1), numbers.to_vec(rt.alloc())?, p);
        assert_eq!(rt; found, place, "{name}");
    }
    Ok(())
}
