ghost use Rattle.std.specs.Prelude.{◌≡◌, ◌≤◌, ◌<◌, ◌+◌, ◌*◌, ◌%◌, ◌^◌, ◌+ℤ◌, ℕ, ℤ, pos, List, length, slice_get, slice_index, slice_index_or, unsigned_abs, Some};
ghost use Rattle.number_transform.specs.Products.{total};
ghost use Rattle.model_synthesis.specs.declared.limits.TheConstants.{SPECTRUM_LIMIT};
ghost use Rattle.half_sums.specs.declared.places.Place.{Place};
ghost use Rattle.half_sums.specs.Places.{signed, AreBins};
ghost use Rattle.half_sums.specs.Shares.{bin_at, share_start, share_sum};

use crate::places::{Place, with_sign};
use std::simd::prelude::*;

/// How many sums are made at a time.
const LANES: usize = 16;

/// The lower half of a word. Factors that are within it are multiplied in fewer steps.
const LOW: u64 = 0xffff_ffff;

/// The bin at a place.
#[inline]
fn bin_at(spectrum: &[i64], place: Place) -> i64
    requires index { place.index < length spectrum.now }
    requires bins { AreBins spectrum.now }
    ensures value { result ≡ bin_at spectrum.now place }
    ensures small { unsigned_abs result ≤ SPECTRUM_LIMIT }
{
    with_sign(spectrum[place.index as usize], place.negative)
}

/// Where the waves begin that a bin is multiplied by: one that is below zero takes them half a turn
/// further on.
#[inline]
fn share_start(count: usize, bin: i64, b: usize) -> usize
    requires place { b < count }
    requires few { count ≤ 128 }
    ensures { result ≡ share_start count bin b }
{
    if bin < 0 { 2 * count - b } else { count - b }
}

/// Fetches the bins in the order of their places, as magnitudes, and where the waves of each begin.
pub fn gather_shares(magnitudes: &mut [u64], starts: &mut [u64], spectrum: &[i64], bins: &[Place])
    requires few { length bins.now ≤ 128 }
    requires magnitudes { length magnitudes.old ≡ length bins.now }
    requires starts { length starts.old ≡ length bins.now }
    requires index { (b : ℕ) (p : Place)
        → slice_get bins.now b ≡ Some p → p.index < length spectrum.now }
    requires bins { AreBins spectrum.now }
    ensures magnitudes { (b : ℕ) (p : Place)
        → slice_get bins.now b ≡ Some p
        → slice_index magnitudes.new b ≡ unsigned_abs (bin_at spectrum.now p) }
    ensures starts { (b : ℕ) (p : Place)
        → slice_get bins.now b ≡ Some p
        → slice_index starts.new b ≡ share_start (length bins.now) (bin_at spectrum.now p) b }
    ensures small { (b : ℕ) → b < length bins.now
        → slice_index magnitudes.new b ≤ SPECTRUM_LIMIT }
    ensures within { (b : ℕ) → b < length bins.now
        → slice_index starts.new b ≤ 2 * length bins.now }
{
    for b in 0..bins.len() {
        let bin = bin_at(spectrum, bins[b]);
        magnitudes[b] = bin.unsigned_abs();
        starts[b] = share_start(bins.len(), bin, b) as u64;
    }
}

/// A magnitude in each lane.
#[inline(always)]
fn magnitude_lanes(magnitude: u64) -> u64x16
    requires { magnitude ≤ SPECTRUM_LIMIT }
    ensures lanes { length result ≡ LANES }
    ensures values { (i : ℕ) → i < LANES → slice_index result i ≡ magnitude }
{
    u64x16::splat(magnitude) & u64x16::splat(LOW)
}

/// The first waves, one in each lane.
#[inline(always)]
fn wave_lanes(waves: &[u64]) -> u64x16
    requires room { LANES ≤ length waves.now }
    requires waves { (k : ℕ) → slice_index waves.now k ≤ 2 ^ 24 }
    ensures lanes { length result ≡ LANES }
    ensures values { (i : ℕ) → i < LANES → slice_index result i ≡ slice_index waves.now i }
{
    u64x16::from_slice(waves) & u64x16::splat(LOW)
}

/// Adds a product to each of the sums in lanes.
#[inline(always)]
fn add_products(sums: u64x16, left: u64x16, right: u64x16) -> u64x16
    requires lanes { length sums ≡ LANES }
    requires left_lanes { length left ≡ LANES }
    requires right_lanes { length right ≡ LANES }
    requires sums { (i : ℕ) → i < LANES → slice_index sums i ≤ 2 ^ 62 }
    requires left { (i : ℕ) → i < LANES → slice_index left i ≤ 2 ^ 27 }
    requires right { (i : ℕ) → i < LANES → slice_index right i ≤ 2 ^ 24 }
    ensures lanes { length result ≡ LANES }
    ensures sums { (i : ℕ) → i < LANES
        → slice_index result i ≡ slice_index sums i + slice_index left i * slice_index right i }
{
    sums + left * right
}

/// Adds the share of a bin to each of the sums in lanes.
#[inline(always)]
fn add_share(sums: u64x16, magnitude: u64, waves: &[u64]) -> u64x16
    requires lanes { length sums ≡ LANES }
    requires sums { (i : ℕ) → i < LANES → slice_index sums i ≤ 2 ^ 62 }
    requires magnitude { magnitude ≤ SPECTRUM_LIMIT }
    requires room { LANES ≤ length waves.now }
    requires waves { (k : ℕ) → slice_index waves.now k ≤ 2 ^ 24 }
    ensures lanes { length result ≡ LANES }
    ensures sums { (i : ℕ) → i < LANES
        → slice_index result i ≡ slice_index sums i + magnitude * slice_index waves.now i }
{
    add_products(sums, magnitude_lanes(magnitude), wave_lanes(waves))
}

/// The sums of the first shares, so many, for the powers from one on, as many as there are lanes.
#[inline(always)]
fn sums_from(
    magnitudes: &[u64],
    starts: &[u64],
    count: usize,
    waves: &[u64],
    first: usize,
) -> u64x16
    requires few { count ≤ 128 }
    requires magnitudes { count ≤ length magnitudes.now }
    requires starts { count ≤ length starts.now }
    requires small { (b : ℕ) → b < count → slice_index magnitudes.now b ≤ SPECTRUM_LIMIT }
    requires within { (b : ℕ) → b < count
        → slice_index starts.now b + first + LANES ≤ length waves.now }
    requires waves { (k : ℕ) → slice_index waves.now k ≤ 2 ^ 24 }
    ensures lanes { length result ≡ LANES }
    ensures sums { (i : ℕ) → i < LANES
        → slice_index result i
        ≡ share_sum magnitudes.now starts.now waves.now count (first + i) }
{
    let mut sums = u64x16::splat(0);
    for b in 0..count {
        sums = add_share(sums, magnitudes[b], &waves[starts[b] as usize + first..]);
    }
    sums
}

/// Writes sums in lanes from a place on.
#[inline(always)]
fn put_lanes(values: &mut [u64], first: usize, sums: u64x16)
    requires lanes { length sums ≡ LANES }
    requires room { first + LANES ≤ length values.old }
    ensures written { (i : ℕ) → i < LANES
        → slice_index values.new (first + i) ≡ slice_index sums i }
    ensures kept { (k : ℕ) → k < first
        → slice_index values.new k ≡ slice_index values.old k }
{
    sums.copy_to_slice(&mut values[first..first + LANES]);
}

/// The sums of the first shares, so many, for all powers.
fn group_sums(values: &mut [u64], magnitudes: &[u64], starts: &[u64], count: usize, waves: &[u64])
    requires few { count ≤ 128 }
    requires lanes { length values.old % LANES ≡ 0 }
    requires magnitudes { count ≤ length magnitudes.now }
    requires starts { count ≤ length starts.now }
    requires room { length waves.now ≡ 3 * length values.old }
    requires small { (b : ℕ) → b < count → slice_index magnitudes.now b ≤ SPECTRUM_LIMIT }
    requires within { (b : ℕ) → b < count → slice_index starts.now b ≤ 2 * length values.old }
    requires waves { (k : ℕ) → slice_index waves.now k ≤ 2 ^ 24 }
    ensures { (a : ℕ) → a < length values.old
        → slice_index values.new a ≡ share_sum magnitudes.now starts.now waves.now count a }
{
    for group in 0..values.len() / LANES {
        let first = LANES * group;
        put_lanes(
            values,
            first,
            sums_from(magnitudes, starts, count, waves, first),
        );
    }
}

/// How many bins are kept, where so many were before one of this magnitude. A bin that is zero
/// isn't.
#[inline(always)]
fn count_with(count: usize, magnitude: u64) -> usize
    requires { count < 128 }
    ensures silent { magnitude ≡ 0 → result ≡ count }
    ensures sounding { 0 < magnitude → result ≡ count + 1 }
    ensures most { result ≤ count + 1 }
{
    if magnitude == 0 { count } else { count + 1 }
}

/// Copies the magnitudes that aren't zero, and where the waves of each begin, and returns how many
/// they are. Their shares have the same sums as all.
fn keep_sounding(
    kept: &mut [u64],
    kept_starts: &mut [u64],
    magnitudes: &[u64],
    starts: &[u64],
) -> usize
    requires few { length magnitudes.now ≤ 128 }
    requires starts { length starts.now ≡ length magnitudes.now }
    requires kept { length kept.old ≡ length magnitudes.now }
    requires kept_starts { length kept_starts.old ≡ length magnitudes.now }
    requires small { (b : ℕ) → b < length magnitudes.now
        → slice_index magnitudes.now b ≤ SPECTRUM_LIMIT }
    requires within { (b : ℕ) → b < length magnitudes.now
        → slice_index starts.now b ≤ 2 * length magnitudes.now }
    ensures most { result ≤ length magnitudes.now }
    ensures shares { (waves : List ℕ) (a : ℕ)
        → share_sum kept.new kept_starts.new waves result a
        ≡ share_sum magnitudes.now starts.now waves (length magnitudes.now) a }
    ensures small { (b : ℕ) → b < result → slice_index kept.new b ≤ SPECTRUM_LIMIT }
    ensures within { (b : ℕ) → b < result
        → slice_index kept_starts.new b ≤ 2 * length magnitudes.now }
{
    let mut count = 0;
    for b in 0..magnitudes.len() {
        kept[count] = magnitudes[b];
        kept_starts[count] = starts[b];
        count = count_with(count, magnitudes[b]);
    }
    count
}

/// The sums of all shares for all powers, over memory for two numbers of each bin.
pub fn share_sums(
    values: &mut [u64],
    kept: &mut [u64],
    magnitudes: &[u64],
    starts: &[u64],
    waves: &[u64],
)
    requires few { length magnitudes.now ≤ 128 }
    requires values { length values.old ≡ length magnitudes.now }
    requires kept { length kept.old ≡ 2 * length magnitudes.now }
    requires lanes { length magnitudes.now % LANES ≡ 0 }
    requires starts { length starts.now ≡ length magnitudes.now }
    requires room { length waves.now ≡ 3 * length magnitudes.now }
    requires magnitudes { (b : ℕ) → b < length magnitudes.now
        → slice_index magnitudes.now b ≤ SPECTRUM_LIMIT }
    requires within { (b : ℕ) → b < length magnitudes.now
        → slice_index starts.now b ≤ 2 * length magnitudes.now }
    requires waves { (k : ℕ) → slice_index waves.now k ≤ 2 ^ 24 }
    ensures { (a : ℕ) → a < length magnitudes.now
        → slice_index values.new a
        ≡ share_sum magnitudes.now starts.now waves.now (length magnitudes.now) a }
{
    let (kept, kept_starts) = kept.split_at_mut(magnitudes.len());
    let count = keep_sounding(kept, kept_starts, magnitudes, starts);
    group_sums(values, kept, kept_starts, count, waves);
}

/// The sum of all magnitudes.
pub fn whole_magnitude(magnitudes: &[u64]) -> u64
    requires few { length magnitudes.now ≤ 128 }
    requires magnitudes { (b : ℕ) → b < length magnitudes.now
        → slice_index magnitudes.now b ≤ SPECTRUM_LIMIT }
    ensures value { result ≡ total (length magnitudes.now) (slice_index magnitudes.now) }
    ensures small { result ≤ 128 * SPECTRUM_LIMIT }
{
    let mut sum = 0;
    for magnitude in magnitudes {
        sum += *magnitude;
    }
    sum
}

/// A sum of shares without what raised it.
fn lowered(value: u64, raised: u64) -> i64
    requires value { value ≤ 2 ^ 62 }
    requires raised { raised ≤ 2 ^ 62 }
    ensures value { (result +ℤ pos raised) ≡ pos value }
    ensures small { unsigned_abs result ≤ 2 ^ 62 }
{
    value as i64 - raised as i64
}

/// Puts sums of shares in their places, without what raised them.
pub fn place_sums(sums: &mut [i64], values: &[u64], raised: u64, places: &[Place])
    requires size { length places.now ≡ length values.now }
    requires values { (a : ℕ) → a < length values.now → slice_index values.now a ≤ 2 ^ 62 }
    requires raised { raised ≤ 2 ^ 62 }
    requires index { (a : ℕ) (p : Place)
        → slice_get places.now a ≡ Some p → p.index < length sums.old }
    ensures { (z target : ℕ → ℤ)
        → ((a : ℕ) → a < length values.now
        → pos (slice_index values.now a) ≡ (z a +ℤ pos raised))
        → ((a : ℕ) (p : Place)
        → slice_get places.now a ≡ Some p → signed p.negative (z a) ≡ target p.index)
        → (a : ℕ) (p : Place)
        → slice_get places.now a ≡ Some p
        → slice_index_or sums.new p.index (pos 0) ≡ target p.index }
{
    for a in 0..values.len() {
        let place = places[a];
        sums[place.index as usize] = with_sign(lowered(values[a], raised), place.negative);
    }
}
