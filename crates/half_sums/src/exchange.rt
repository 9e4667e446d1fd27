ghost use Rattle.std.specs.Prelude.{◌≡◌, ◌≤◌, ◌<◌, ◌^◌, ◌*◌, ◌-◌, ℕ, ℤ, pos, length, slice_get, slice_index, slice_index_or, unsigned_abs};
ghost use Rattle.number_transform.specs.declared.field.TheConstants.{PRIME};
ghost use Rattle.number_transform.specs.Field.{residue_of};
ghost use Rattle.half_sums.specs.Places.{signed, AreBins};

use crate::places::{Place, with_sign};
use number_transform::{from_signed, to_signed};

/// The residue of the bin at a place.
#[inline]
fn bin_residue(spectrum: &[i64], place: Place) -> u64
    requires index { place.index < length spectrum.now }
    requires bins { AreBins spectrum.now }
    ensures value { result ≡ residue_of
        (signed place.negative (slice_index_or spectrum.now place.index (pos 0))) }
    ensures below { result < PRIME }
{
    from_signed(with_sign(spectrum[place.index as usize], place.negative))
}

/// Fetches the bins in the order of their places.
pub fn gather(values: &mut [u64], spectrum: &[i64], bins: &[Place])
    requires size { length bins.now ≡ length values.old }
    requires index { (b : ℕ) (p : Place)
        → slice_get bins.now b ≡ Some p → p.index < length spectrum.now }
    requires bins { AreBins spectrum.now }
    ensures values { (b : ℕ) (p : Place)
        → slice_get bins.now b ≡ Some p
        → slice_index values.new b
        ≡ residue_of (signed p.negative (slice_index_or spectrum.now p.index (pos 0))) }
    ensures small { (k : ℕ) → slice_index values.new k < PRIME }
{
    for b in 0..values.len() {
        values[b] = bin_residue(spectrum, bins[b]);
    }
}

/// Puts the sums whose residues are given in their places.
pub fn scatter(sums: &mut [i64], values: &[u64], places: &[Place])
    requires size { length places.now ≡ length values.now }
    requires small { (k : ℕ) → slice_index values.now k < PRIME }
    requires index { (a : ℕ) (p : Place)
        → slice_get places.now a ≡ Some p → p.index < length sums.old }
    ensures { (z target : ℕ → ℤ)
        → ((a : ℕ) → a < length values.now
        → (slice_index values.now a ≡ residue_of (z a)) × (2 * unsigned_abs (z a) < PRIME))
        → ((a : ℕ) (p : Place)
        → slice_get places.now a ≡ Some p → signed p.negative (z a) ≡ target p.index)
        → (a : ℕ) (p : Place)
        → slice_get places.now a ≡ Some p
        → slice_index_or sums.new p.index (pos 0) ≡ target p.index }
{
    for a in 0..values.len() {
        let place = places[a];
        sums[place.index as usize] = with_sign(to_signed(values[a]), place.negative);
    }
}
