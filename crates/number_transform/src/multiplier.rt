ghost use Rattle.std.specs.Prelude.{◌≡◌, ◌≤◌, ◌<◌, ◌*◌, ◌%◌, ◌^◌, ℕ, List, length, slice_index, IfOk};
ghost use Rattle.number_transform.specs.declared.field.TheConstants.{PRIME};
ghost use Rattle.number_transform.specs.Products.{product_list};
ghost use Rattle.number_transform.specs.Remainders.{products};
ghost use Rattle.number_transform.specs.Folds.{AreResidues};
ghost use Rattle.number_transform.specs.declared.roots.TheConstants.{MOST_LEVELS};
ghost use Rattle.number_transform.specs.Factors.{factor_of};
ghost use Rattle.number_transform.specs.Roots.{AreRoots};

use crate::field::{multiply, power};
use crate::forward::forward;
use crate::inverse::inverse;
use crate::roots::{inverse_roots, roots};
use std::alloc::{AllocError, Global};

/// The inverse of 2.
pub const HALF: u64 = 0x7fff_ffff_8000_0001;

/// Multiplies each residue by a number.
fn scale(values: &mut [u64], factor: u64)
    ensures values { (k : ℕ) → k < length values.old
        → slice_index values.new k ≡ (slice_index values.old k * factor) % PRIME }
    ensures small { AreResidues values.new }
{
    for value in values.iter_mut() {
        *value = multiply(*value, factor);
    }
}

/// Multiplies residues place by place.
fn multiply_places(values: &mut [u64], factors: &[u64])
    requires size { length factors.now ≡ length values.old }
    ensures products { values.new ≡ products values.old factors.now }
    ensures small { AreResidues values.new }
{
    for k in 0..values.len() {
        values[k] = multiply(values[k], factors[k]);
    }
}

/// Multiplies polynomials of 2^2 to 2^12 coefficients, which are residues modulo the prime, modulo
/// x^n + 1 for n coefficients. It holds the roots that all sizes share.
#[derive(Debug, Drop)]
pub struct Multiplier {
    roots: Vec<u64>,
    inverses: Vec<u64>,
    ghost right: { AreRoots roots.items inverses.items },
}

impl Multiplier {
    /// Makes the roots: 2^12 residues and their inverses.
    pub fn new(alloc: Global) -> Result<Self, AllocError>
        ensures { IfOk result (λ multiplier.
            AreRoots multiplier.roots.items multiplier.inverses.items) }
    {
        let roots = roots(alloc)?;
        let inverses = inverse_roots(alloc)?;
        Ok(Multiplier { roots, inverses })
    }

    /// Puts in the place of a polynomial of 2^levels coefficients what `multiply` takes as a factor
    /// in place of it.
    pub fn make_factor(&self, values: &mut [u64], levels: u32)
        requires some { 2 ≤ levels }
        requires few { levels ≤ MOST_LEVELS }
        requires size { length values.old ≡ 2 ^ levels }
        ensures { values.new ≡ factor_of levels values.old }
    {
        scale(values, power(HALF, u64::from(levels)));
        forward(values, levels, 1, &self.roots);
    }

    /// Multiplies a polynomial of 2^levels coefficients by the one that a factor was made of.
    pub fn multiply(&self, values: &mut [u64], factor: &[u64], levels: u32)
        requires some { 2 ≤ levels }
        requires few { levels ≤ MOST_LEVELS }
        requires size { length values.old ≡ 2 ^ levels }
        requires values { AreResidues values.old }
        requires factor { length factor.now ≡ 2 ^ levels }
        ensures product { (b : List ℕ) → factor.now ≡ factor_of levels b
            → values.new ≡ product_list (2 ^ levels) values.old b }
        ensures small { AreResidues values.new }
    {
        forward(values, levels, 1, &self.roots);
        multiply_places(values, factor);
        inverse(values, levels, 1, &self.inverses);
    }
}
