ghost use Rattle.std.specs.Prelude.{◌≡◌, ◌≤◌, ◌<◌, ◌+◌, ◌-◌, ◌*◌, ◌%◌, ◌^◌, ℕ, length, slice_index};
ghost use Rattle.number_transform.specs.declared.field.TheConstants.{PRIME};
ghost use Rattle.number_transform.specs.Remainders.{AreInverses, remainders};
ghost use Rattle.number_transform.specs.Folds.{AreResidues, join_front, join_back};

use crate::field::{add, multiply, subtract};

/// Takes two coefficients apart that were folded onto each other: twice what they were.
#[inline(always)]
fn join_pair(front: u64, back: u64, inverse: u64) -> (u64, u64)
    requires front { front < PRIME }
    requires back { back < PRIME }
    ensures front { result.0 ≡ join_front front back }
    ensures back { result.1 ≡ join_back inverse front back }
    ensures small_front { result.0 < PRIME }
    ensures small_back { result.1 < PRIME }
{
    (add(front, back), multiply(subtract(front, back), inverse))
}

/// Takes two halves apart that were folded onto each other.
fn join_halves(front: &mut [u64], back: &mut [u64], inverse: u64)
    requires size { length back.old ≡ length front.old }
    requires front { AreResidues front.old }
    requires back { AreResidues back.old }
    ensures front { (k : ℕ) → k < length front.old
        → slice_index front.new k
        ≡ join_front (slice_index front.old k) (slice_index back.old k) }
    ensures back { (k : ℕ) → k < length front.old
        → slice_index back.new k
        ≡ join_back inverse (slice_index front.old k) (slice_index back.old k) }
    ensures small_front { AreResidues front.new }
    ensures small_back { AreResidues back.new }
{
    for k in 0..front.len() {
        let (low, high) = join_pair(front[k], back[k], inverse);
        front[k] = low;
        back[k] = high;
    }
}

/// Puts a polynomial of four coefficients, four times as large, in the place of its remainders.
#[inline]
fn join_four(values: &mut [u64], node: usize, inverses: &[u64])
    requires size { length values.old ≡ 4 }
    requires values { AreResidues values.old }
    requires node { 2 * node + 1 < length inverses.now }
    ensures polynomial { (w v : ℕ → ℕ)
        → AreInverses w (slice_index inverses.now) (length inverses.now)
        → values.old ≡ remainders w 2 node v
        → (k : ℕ) → k < 4 → slice_index values.new k ≡ (4 * v k) % PRIME }
    ensures small { AreResidues values.new }
{
    let (a, b) = join_pair(values[0], values[1], inverses[2 * node]);
    let (c, d) = join_pair(values[2], values[3], inverses[2 * node + 1]);
    let inverse = inverses[node];
    let (first, third) = join_pair(a, c, inverse);
    let (second, fourth) = join_pair(b, d, inverse);
    values[0] = first;
    values[1] = second;
    values[2] = third;
    values[3] = fourth;
}

/// Puts a polynomial of 2^levels coefficients, 2^levels times as large, in the place of its
/// remainders below a node of a tree of roots.
pub fn inverse(values: &mut [u64], levels: u32, node: usize, inverses: &[u64])
    requires some { 2 ≤ levels }
    requires size { length values.old ≡ 2 ^ levels }
    requires values { AreResidues values.old }
    requires positive { 0 < node }
    requires node { (node + 1) * 2 ^ levels ≤ 2 * length inverses.now }
    ensures polynomial { (w v : ℕ → ℕ)
        → AreInverses w (slice_index inverses.now) (length inverses.now)
        → values.old ≡ remainders w levels node v
        → (k : ℕ) → k < 2 ^ levels → slice_index values.new k ≡ (2 ^ levels * v k) % PRIME }
    ensures small { AreResidues values.new }
{
    if levels == 2 {
        join_four(values, node, inverses);
        return;
    }
    let half = values.len() / 2;
    let (front, back) = values.split_at_mut(half);
    inverse(front, levels - 1, 2 * node, inverses);
    inverse(back, levels - 1, 2 * node + 1, inverses);
    join_halves(front, back, inverses[node]);
}
