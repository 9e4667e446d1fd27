ghost use Rattle.std.specs.Prelude.{◌≡◌, ◌≤◌, ◌<◌, ◌^◌, ◌+◌, ◌*◌, ◌/◌, ◌%◌, ◌+ℤ◌, [], length, ℕ, slice_index_or};
ghost use Rattle.model_fixed.specs.Fixed.{IsWithinLimit, limited};
ghost use Rattle.std.specs.List.{All};
ghost use Rattle.model_setup.specs.ResidueDecoding.{add_all, reading_places};
ghost use Rattle.model_setup.specs.declared.residue.ResidueKind.TheVariants.{Interleaved};
ghost use Rattle.residues.specs.Layout.{AreLines, together, run_places};

use crate::Line;
use model_fixed::VALUE_LIMIT;
use model_setup::ResidueKind;

/// What sums are limited to, on both sides.
const LIMIT: i64 = VALUE_LIMIT as i64;

/// Where the values of one reading are added: the first place, how far the next one is, and how
/// many there are.
#[derive(Clone, Copy, Debug, PartialEq, Eq)]
pub struct Run {
    pub first: usize,
    pub stride: usize,
    pub count: usize,
}

/// A sum within the limit.
fn limited_sum(value: i64, term: i64) -> i64
    requires value { IsWithinLimit value }
    requires term { IsWithinLimit term }
    ensures sum { result ≡ limited (value +ℤ term) }
    ensures small { IsWithinLimit result }
{
    (value + term).clamp(-LIMIT, LIMIT)
}

/// Adds values to those of a line at the places of a run.
pub fn add_to_line(line: &mut Line, run: Run, values: &[i64])
    requires within { (j : ℕ) → j < run.count → run.first + j * run.stride < length line.old }
    requires enough { run.count ≤ length values.now }
    requires line { All IsWithinLimit line.old }
    requires values { All IsWithinLimit values.now }
    ensures added { line.new ≡ add_all line.old (run_places run.first run.stride run.count)
        values.now }
    ensures size { length line.new ≡ length line.old }
    ensures small { All IsWithinLimit line.new }
{
    let line = line.items_mut();
    for j in 0..run.count {
        let place = run.first + j * run.stride;
        line[place] = limited_sum(line[place], values[j]);
    }
}

/// Where a place of so many lines taken together is: the line, and the place in it. One line and
/// two, which films mostly have, take no division.
fn line_of(place: usize, channels: usize) -> (usize, usize)
    requires { 0 < channels }
    ensures channel { result.0 ≡ place % channels }
    ensures place { result.1 ≡ place / channels }
{
    match channels {
        1 => (0, place),
        2 => (place % 2, place / 2),
        _ => (place % channels, place / channels),
    }
}

/// Adds values to those of the lines taken together, from a place on.
pub fn add_across(lines: &mut [Line], size: usize, first: usize, count: usize, values: &[i64])
    requires lines { AreLines size lines.old }
    requires within { first + count ≤ size * length lines.old }
    requires enough { count ≤ length values.now }
    requires values { All IsWithinLimit values.now }
    ensures added { together size lines.new
        ≡ add_all (together size lines.old) (run_places first 1 count) values.now }
    ensures lines { AreLines size lines.new }
{
    let channels = lines.len();
    if channels == 0 {
        return;
    }
    let (mut channel, mut place) = line_of(first, channels);
    for j in 0..count {
        let line = lines[channel].items_mut();
        line[place] = limited_sum(line[place], values[j]);
        channel += 1;
        if channel == channels {
            channel = 0;
            place += 1;
        }
    }
}

/// How many readings fill a partition of so many values, by a book of so many dimensions.
pub fn reading_count(kind: ResidueKind, size: usize, dimensions: usize) -> usize
    requires { 0 < dimensions }
    ensures { (first : ℕ) → result ≡ length (reading_places kind first size dimensions) }
{
    match kind {
        ResidueKind::Spread => size / dimensions,
        ResidueKind::InRow | ResidueKind::Interleaved => size.div_ceil(dimensions),
    }
}

/// Where the values of a reading are added, in a partition from a first place on.
pub fn run_of(
    kind: ResidueKind,
    first: usize,
    size: usize,
    dimensions: usize,
    reading: usize,
) -> Run
    requires some { 0 < dimensions }
    requires dimensions { dimensions < 2 ^ 16 }
    requires first { first < 2 ^ 25 }
    requires size { size ≤ 2 ^ 24 }
    requires reading { reading < length (reading_places kind first size dimensions) }
    ensures places { run_places result.first result.stride result.count
        ≡ slice_index_or (reading_places kind first size dimensions) reading [] }
    ensures within { (j : ℕ) → j < result.count → result.first + j * result.stride < first + size }
    ensures enough { result.count ≤ dimensions }
    ensures few { result.count ≤ size }
    ensures some { 0 < result.count }
    ensures interleaved { kind ≡ Interleaved → result.stride ≡ 1 }
{
    match kind {
        ResidueKind::Spread => Run {
            first: first + reading,
            stride: size / dimensions,
            count: dimensions,
        },
        ResidueKind::InRow | ResidueKind::Interleaved => Run {
            first: first + reading * dimensions,
            stride: 1,
            count: dimensions.min(size - reading * dimensions),
        },
    }
}
