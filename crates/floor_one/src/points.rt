ghost use Rattle.std.specs.Prelude.{◌≡◌, ◌≤◌, ◌<◌, ◌^◌, ◌+◌, length, IfOk, OnOk, OnErr};
ghost use Rattle.model_bits.specs.Reading.{leaving, times};
ghost use Rattle.model_setup.specs.declared.floor.TheConstants.{MOST_POINTS};
ghost use Rattle.model_setup.specs.FloorSetup.{is_distinct, ArePoints};
ghost use Rattle.model_setup.specs.FloorReading.{floor_field, x_values_at};
ghost use Rattle.model_setup.specs.FloorCurve.{low_neighbour, high_neighbour};
ghost use Rattle.floor_one.specs.Points.{AreEnds, AreInOrder, neighbours_of, point_fields, positions_of, with_ends};
ghost use Rattle.model_writing.specs.SetupWriting.{range_bits};
ghost use Rattle.setup_fields.specs.Puts.{ArePut, HavePlaces, IsFrontOf};

use crate::fields::read_field;
use arrayvec::ArrayVec;
use bit_reader::{Bits, BitsOut, NoMemory};
use model_setup::{FloorFault, MOST_POINTS};
use setup_fields::{put_number, put_words};
use std::marker::Model;

/// The numbers of the points nearest to a point, below and above it, among those before it
/// (Vorbis I, sections 9.2.4 and 9.2.5).
#[derive(Clone, Copy, Debug, Default, PartialEq, Eq)]
pub struct Neighbours {
    pub low: u8,
    pub high: u8,
}

/// The bin of the spectrum at which the point of a number stands.
#[derive(Clone, Copy, Debug, Default, PartialEq, Eq)]
pub struct Position {
    pub x: u16,
    pub number: u8,
}

/// The bins at which a floor's points stand, with what a packet needs of their order.
#[derive(Debug, Drop)]
pub struct Points {
    x_values: ArrayVec<u16, MOST_POINTS>,
    neighbours: ArrayVec<Neighbours, MOST_POINTS>,
    order: ArrayVec<Position, MOST_POINTS>,
}

impl Model for Points {
    ghost use Rattle.std.specs.Prelude.{List, ℕ};
    ghost use Rattle.floor_one.specs.Points.{IsGeometry};

    ghost Value = { List ℕ };

    ghost view = { λ a. a.x_values.items };

    ghost invariant = { λ a. IsGeometry a.x_values.items a.neighbours.items a.order.items };
}

/// Whether no number stands twice.
fn is_distinct(x_values: &[u16]) -> bool
    ensures { result ≡ is_distinct x_values.now }
{
    for i in 0..x_values.len() {
        if x_values[i + 1..].contains(&x_values[i]) {
            return false;
        }
    }
    true
}

/// The neighbours of a point.
fn find_neighbours(x_values: &[u16], i: usize) -> Neighbours
    requires points { ArePoints x_values.now }
    requires behind { 2 ≤ i }
    requires within { i < length x_values.now }
    ensures low { result.low ≡ low_neighbour x_values.now i }
    ensures high { result.high ≡ high_neighbour x_values.now i }
{
    let x = x_values[i];
    let mut low = 0;
    let mut high = 1;
    for n in 2..i {
        let other = x_values[n];
        if other < x && x_values[low] < other {
            low = n;
        }
        if x < other && other < x_values[high] {
            high = n;
        }
    }
    Neighbours {
        low: low as u8,
        high: high as u8,
    }
}

/// The neighbours of each point behind the first two.
fn all_neighbours(x_values: &[u16]) -> ArrayVec<Neighbours, MOST_POINTS>
    requires { ArePoints x_values.now }
    ensures { result.items ≡ neighbours_of x_values.now }
{
    let mut all = ArrayVec::new();
    for i in 2..x_values.len() {
        all.push(find_neighbours(x_values, i));
    }
    all
}

/// The positions of all points.
fn positions(x_values: &[u16]) -> ArrayVec<Position, MOST_POINTS>
    requires { length x_values.now ≤ MOST_POINTS }
    ensures { result.items ≡ positions_of x_values.now }
{
    let mut all = ArrayVec::new();
    for i in 0..x_values.len() {
        all.push(Position {
            x: x_values[i],
            number: i as u8,
        });
    }
    all
}

/// The positions of all points, in rising order of their bins.
fn in_order(x_values: &[u16]) -> ArrayVec<Position, MOST_POINTS>
    requires { ArePoints x_values.now }
    ensures { AreInOrder x_values.now result.items }
{
    let mut positions = positions(x_values);
    positions
        .as_mut_slice()
        .sort_unstable_by_key(|position| position.x);
    positions
}

/// Reads the bins of so many points behind the first two, which stand at bin 0 and at the end of
/// a range of so many bits.
fn read_x_values(
    bits: &mut Bits,
    range_bits: u32,
    count: u32,
) -> Result<ArrayVec<u16, MOST_POINTS>, FloorFault>
    requires range_bits { range_bits < 16 }
    requires count { count ≤ 63 }
    ensures read { with_ends range_bits (times count (floor_field range_bits) bits.old.left)
        ≡ leaving bits.new.left (λ v. v.items) result }
    ensures ends { IfOk result (λ v. AreEnds v.items) }
    ensures count { IfOk result (λ v. length v.items ≡ count + 2) }
    ensures bytes { bits.new.total ≡ bits.old.total }
{
    let mut x_values = ArrayVec::new();
    x_values.push(0);
    x_values.push(1 << range_bits);
    for _ in 0..count {
        let x = read_field(bits, range_bits)?;
        x_values.push(x as u16);
    }
    Ok(x_values)
}

/// Reads the points of a floor, of which so many stand behind the first two.
#[tactic(auto, unfolding(model_setup::specs::FloorReading::x_values_at))]
pub fn read_points(bits: &mut Bits, range_bits: u32, count: u32) -> Result<Points, FloorFault>
    requires range_bits { range_bits < 16 }
    requires count { count < 2 ^ 16 }
    ensures read { x_values_at range_bits count bits.old.left
        ≡ leaving bits.new.left (λ p. p) result }
    ensures points { IfOk result ArePoints }
    ensures count { IfOk result (λ p. length p ≡ count + 2) }
    ensures bytes { bits.new.total ≡ bits.old.total }
{
    if count as usize + 2 > MOST_POINTS {
        return Err(FloorFault::List);
    }
    let x_values = read_x_values(bits, range_bits, count)?;
    if !is_distinct(&x_values) {
        return Err(FloorFault::List);
    }
    let neighbours = all_neighbours(&x_values);
    let order = in_order(&x_values);
    Ok(Points {
        x_values,
        neighbours,
        order,
    })
}

impl Points {
    /// The bin of each point.
    pub fn x_values(&self) -> &[u16]
        ensures value { result.now ≡ self.now }
        ensures points { ArePoints self.now }
    {
        self.x_values.as_slice()
    }

    /// The neighbours of each point behind the first two.
    pub fn neighbours(&self) -> &[Neighbours]
        ensures value { result.now ≡ neighbours_of self.now }
    {
        self.neighbours.as_slice()
    }

    /// The positions of all points, in rising order of their bins.
    pub fn order(&self) -> &[Position]
        ensures order { AreInOrder self.now result.now }
    {
        self.order.as_slice()
    }

    /// How many bits the bin of a point behind the first two has.
    fn range_bits(&self) -> u32
        ensures value { result ≡ range_bits self.now }
        ensures small { result ≤ 32 }
    {
        let last = self.x_values[1] - 1;
        u32::BITS - u32::from(last).leading_zeros()
    }

    /// Writes the range, and the bins of the points behind the first two.
    pub fn write(&self, out: &mut BitsOut) -> Result<(), NoMemory>
        requires { HavePlaces (point_fields self.now) }
        ensures put { OnOk result (ArePut out.old out.new (point_fields self.now)) }
        ensures kept { OnErr result (IsFrontOf out.old out.new) }
    {
        let width = self.range_bits();
        put_number(out, 4, width)?;
        put_words(out, width, &self.x_values[2..])
    }
}
