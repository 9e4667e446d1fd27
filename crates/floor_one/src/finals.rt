ghost use Rattle.std.specs.Prelude.{◌≡◌, ◌≤◌, ◌<◌, ◌^◌, ◌+◌, ◌++◌, ◌∷◌, [], ◌/◌, ◌%◌, ◌==◌, if◌then◌else◌, length, map, ℕ, true, not, ◌&&◌, ◌||◌, pos, ◌+ℤ◌, ◌-ℤ◌, int_lt, unsigned_abs, slice_index};
ghost use Rattle.std.specs.List.{All};
ghost use Rattle.model_setup.specs.FloorCurve.{render_point, low_room, high_room, room, final_value, finals_up_to, final_of};
ghost use Rattle.model_setup.specs.declared.floor.TheConstants.{MOST_POINTS};
ghost use Rattle.floor_one.specs.Curves.{AreSmall, IsRange, AreNeighbours, AddsNext, height_between_neighbours};

use crate::points::{Neighbours, Points};
use arrayvec::ArrayVec;
use model_setup::{Final, MOST_POINTS};
use std::marker::Model;

/// The final value and the flag of each point of a floor, in one packet.
#[derive(Debug, Drop)]
pub struct Finals {
    finals: ArrayVec<Final, MOST_POINTS>,
}

impl Model for Finals {
    ghost use Rattle.std.specs.Prelude.{List};
    ghost use Rattle.model_setup.specs.declared.floor.Final.{Final};

    ghost Value = { List Final };

    ghost view = { λ a. a.finals.items };
}

/// What a packet says of a floor (Vorbis I, section 7.2.3).
#[derive(Debug, Drop)]
pub enum Floored {
    /// The floor isn't used: its channel is silent in this packet.
    Unused,
    /// The floor's points, from which its curve is drawn.
    Curve(Finals),
}

/// The height at bin `x` of the straight line between two points, rounded toward the first
/// (Vorbis I, section 9.2.6).
pub fn render_point(x0: u32, y0: i64, x1: u32, y1: i64, x: u32) -> i64
    requires low { unsigned_abs y0 ≤ 2 ^ 27 }
    requires high { unsigned_abs y1 ≤ 2 ^ 27 }
    requires order { x0 < x1 }
    requires within { x1 < 2 ^ 16 }
    requires behind { x0 ≤ x }
    requires before { x ≤ x1 }
    ensures value { result ≡ render_point x0 y0 x1 y1 x }
    ensures small { (n : ℕ) → unsigned_abs y0 ≤ n → unsigned_abs y1 ≤ n → unsigned_abs result ≤ n }
{
    let rise = (y1 - y0).unsigned_abs() * u64::from(x - x0) / u64::from(x1 - x0);
    if y1 < y0 {
        y0 - rise as i64
    } else {
        y0 + rise as i64
    }
}

/// The height of a point that a value moves within the room on both sides: by turns down and up.
fn moved_within(height: i64, y: u32) -> i64
    requires height { unsigned_abs height ≤ 2 ^ 8 }
    requires y { y ≤ 2 ^ 9 }
    ensures value { result ≡ (if y % 2 == 1 then height -ℤ pos ((y + 1) / 2)
        else height +ℤ pos (y / 2)) }
    ensures small { unsigned_abs result ≤ 2 ^ 10 }
{
    if y % 2 == 1 {
        height - i64::from((y + 1) / 2)
    } else {
        height + i64::from(y / 2)
    }
}

/// The height of a point that a value moves past the room of one side, to the side that has more.
fn moved_past(range: u32, height: i64, y: u32) -> i64
    requires range { IsRange range }
    requires height { unsigned_abs height ≤ 2 ^ 24 }
    requires y { y < 2 ^ 24 }
    ensures value { result ≡ (if int_lt (low_room height) (high_room range height)
        then (pos y -ℤ low_room height) +ℤ height
        else ((height -ℤ pos y) +ℤ high_room range height) -ℤ pos 1) }
    ensures small { unsigned_abs result ≤ 2 ^ 24 }
{
    let y = i64::from(y);
    let high_room = i64::from(range) - height;
    let low_room = height;
    if low_room < high_room {
        y - low_room + height
    } else {
        height - y + high_room - 1
    }
}

/// Twice the room above or below a height, whichever is less.
fn room(range: u32, height: i64) -> i64
    requires few { range ≤ 256 }
    requires height { unsigned_abs height ≤ 2 ^ 24 }
    ensures { result ≡ room range height }
{
    let high_room = i64::from(range) - height;
    let low_room = height;
    2 * high_room.min(low_room)
}

/// The final value of a point that was predicted at a height, of so many heights (Vorbis I, section
/// 7.2.4, step 1).
#[tactic(auto, unfolding(model_setup::specs::FloorCurve::final_value))]
fn final_value(range: u32, height: i64, y: u32) -> i64
    requires range { IsRange range }
    requires height { unsigned_abs height ≤ 2 ^ 24 }
    requires y { y < 2 ^ 24 }
    ensures value { result ≡ final_value range height y }
    ensures small { unsigned_abs result ≤ 2 ^ 24 }
{
    if y == 0 {
        height
    } else if room(range, height) <= i64::from(y) {
        moved_past(range, height, y)
    } else {
        moved_within(height, y)
    }
}

/// The final value of one of the points so far.
fn value_at(finals: &[Final], i: usize) -> i64
    requires within { i < length finals.now }
    requires small { AreSmall finals.now }
    ensures value { result ≡ (final_of finals.now i).value }
    ensures small { unsigned_abs result ≤ 2 ^ 24 }
{
    i64::from(finals[i].value)
}

/// The height of a point on the straight line between its neighbours.
fn predicted(x_values: &[u16], finals: &[Final], i: usize, neighbours: Neighbours) -> i64
    requires within { i < length x_values.now }
    requires count { i ≤ length finals.now }
    requires neighbours { AreNeighbours x_values.now i neighbours }
    requires small { AreSmall finals.now }
    ensures value { result ≡ height_between_neighbours x_values.now finals.now i neighbours.low
        neighbours.high }
    ensures small { unsigned_abs result ≤ 2 ^ 24 }
{
    let low = usize::from(neighbours.low);
    let high = usize::from(neighbours.high);
    render_point(
        u32::from(x_values[low]),
        value_at(finals, low),
        u32::from(x_values[high]),
        value_at(finals, high),
        u32::from(x_values[i]),
    )
}

/// Flags a point.
fn flag(finals: &mut [Final], i: usize)
    requires { i < length finals.old }
    ensures values { map (λ (f : Final). f.value) finals.new
        ≡ map (λ (f : Final). f.value) finals.old }
    ensures flags { (k : ℕ) → k < length finals.old
        → (final_of finals.new k).flagged ≡ ((final_of finals.old k).flagged || i == k) }
    ensures small { AreSmall finals.old → AreSmall finals.new }
{
    finals[i].flagged = true;
}

/// Flags the neighbours of a point whose own value isn't 0.
fn flag_neighbours(finals: &mut [Final], neighbours: Neighbours, y: u32)
    requires low { neighbours.low < length finals.old }
    requires high { neighbours.high < length finals.old }
    ensures values { map (λ (f : Final). f.value) finals.new
        ≡ map (λ (f : Final). f.value) finals.old }
    ensures flags { (k : ℕ) → k < length finals.old
        → (final_of finals.new k).flagged
        ≡ ((final_of finals.old k).flagged
        || (not (y == 0) && (neighbours.low == k || neighbours.high == k))) }
    ensures small { AreSmall finals.old → AreSmall finals.new }
{
    if y != 0 {
        flag(finals, usize::from(neighbours.low));
        flag(finals, usize::from(neighbours.high));
    }
}

/// Adds the next point to those so far, from its value in the packet.
fn push_next(
    finals: &mut ArrayVec<Final, MOST_POINTS>,
    x_values: &[u16],
    neighbours: Neighbours,
    range: u32,
    y: u32,
)
    requires within { length finals.old.items < length x_values.now }
    requires room { length x_values.now ≤ MOST_POINTS }
    requires neighbours { AreNeighbours x_values.now (length finals.old.items) neighbours }
    requires small { AreSmall finals.old.items }
    requires range { IsRange range }
    requires y { y < 2 ^ 24 }
    ensures next { AddsNext x_values.now finals.old.items finals.new.items neighbours range y }
    ensures small { AreSmall finals.new.items }
{
    let height = predicted(x_values, finals, finals.len(), neighbours);
    flag_neighbours(finals, neighbours, y);
    finals.push(Final {
        value: final_value(range, height, y) as i32,
        flagged: y != 0,
    });
}

/// One of the first two points, whose values in the packet are final.
fn end_point(y: u32) -> Final
    requires { y < 2 ^ 24 }
    ensures value { result.value ≡ pos y }
    ensures flagged { result.flagged ≡ true }
{
    Final {
        value: y as i32,
        flagged: true,
    }
}

impl Finals {
    /// The final value and the flag of each point, from the values that a packet has
    /// (Vorbis I, section 7.2.4, step 1).
    pub(crate) fn new(points: &Points, range: u32, values: &[u32]) -> Finals
        requires range { IsRange range }
        requires count { length values.now ≡ length points.now }
        requires small { All (λ y. y < 2 ^ 24) values.now }
        ensures finals { result ≡ finals_up_to range points.now values.now (length points.now) }
        ensures small { AreSmall result }
    {
        let x_values = points.x_values();
        let mut finals = ArrayVec::new();
        finals.push(end_point(values[0]));
        finals.push(end_point(values[1]));
        for (i, neighbours) in points.neighbours().iter().enumerate() {
            push_next(&mut finals, x_values, *neighbours, range, values[i + 2]);
        }
        Finals { finals }
    }

    /// The final value and the flag of each point, in the order of the points.
    pub fn items(&self) -> &[Final]
        ensures { result.now ≡ self.now }
    {
        self.finals.as_slice()
    }
}
