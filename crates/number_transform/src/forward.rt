ghost use Rattle.std.specs.Prelude.{◌≡◌, ◌≤◌, ◌<◌, ◌+◌, ◌-◌, ◌*◌, ◌%◌, ◌^◌, ℕ, length, slice_index};
ghost use Rattle.number_transform.specs.declared.field.TheConstants.{PRIME};
ghost use Rattle.number_transform.specs.Remainders.{remainders};
ghost use Rattle.number_transform.specs.Folds.{AreResidues, fold_front, fold_back};

use crate::field::{add, multiply, subtract};

/// Two coefficients that fall on one modulo x^m - root, and on one modulo x^m + root.
#[inline(always)]
fn fold_pair(front: u64, back: u64, root: u64) -> (u64, u64)
    requires front { front < PRIME }
    requires root { root < PRIME }
    ensures front { result.0 ≡ fold_front root front back }
    ensures back { result.1 ≡ fold_back root front back }
    ensures small_front { result.0 < PRIME }
    ensures small_back { result.1 < PRIME }
{
    let scaled = multiply(back, root);
    (add(front, scaled), subtract(front, scaled))
}

/// Folds the halves of a polynomial onto each other, modulo x^m - root and modulo x^m + root.
fn fold_halves(front: &mut [u64], back: &mut [u64], root: u64)
    requires size { length back.old ≡ length front.old }
    requires front { AreResidues front.old }
    requires back { AreResidues back.old }
    requires root { root < PRIME }
    ensures front { (k : ℕ) → k < length front.old
        → slice_index front.new k
        ≡ fold_front root (slice_index front.old k) (slice_index back.old k) }
    ensures back { (k : ℕ) → k < length front.old
        → slice_index back.new k
        ≡ fold_back root (slice_index front.old k) (slice_index back.old k) }
    ensures small_front { AreResidues front.new }
    ensures small_back { AreResidues back.new }
{
    for k in 0..front.len() {
        let (low, high) = fold_pair(front[k], back[k], root);
        front[k] = low;
        back[k] = high;
    }
}

/// Puts the remainders of a polynomial of four coefficients in its place.
#[inline]
fn fold_four(values: &mut [u64], node: usize, roots: &[u64])
    requires size { length values.old ≡ 4 }
    requires values { AreResidues values.old }
    requires node { 2 * node + 1 < length roots.now }
    requires roots { AreResidues roots.now }
    ensures remainders { values.new
        ≡ remainders (slice_index roots.now) 2 node (slice_index values.old) }
    ensures small { AreResidues values.new }
{
    let root = roots[node];
    let (a, c) = fold_pair(values[0], values[2], root);
    let (b, d) = fold_pair(values[1], values[3], root);
    let (first, second) = fold_pair(a, b, roots[2 * node]);
    let (third, fourth) = fold_pair(c, d, roots[2 * node + 1]);
    values[0] = first;
    values[1] = second;
    values[2] = third;
    values[3] = fourth;
}

/// Puts the remainders of a polynomial of 2^levels coefficients in its place, below a node of a
/// tree of roots.
pub fn forward(values: &mut [u64], levels: u32, node: usize, roots: &[u64])
    requires some { 2 ≤ levels }
    requires size { length values.old ≡ 2 ^ levels }
    requires values { AreResidues values.old }
    requires node { (node + 1) * 2 ^ levels ≤ 2 * length roots.now }
    requires roots { AreResidues roots.now }
    ensures remainders { values.new
        ≡ remainders (slice_index roots.now) levels node (slice_index values.old) }
    ensures small { AreResidues values.new }
{
    if levels == 2 {
        fold_four(values, node, roots);
        return;
    }
    let half = values.len() / 2;
    let (front, back) = values.split_at_mut(half);
    fold_halves(front, back, roots[node]);
    forward(front, levels - 1, 2 * node, roots);
    forward(back, levels - 1, 2 * node + 1, roots);
}
