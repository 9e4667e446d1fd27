ghost use Rattle.std.specs.Prelude.{◌≡◌, ◌≤◌, ◌*◌, ◌^◌, length, IfOk, IsTrue};
ghost use Rattle.model_setup.specs.HeaderPackets.{IsBlockSize};
ghost use Rattle.half_sums.specs.HalfSums.{AreHalfSums};
ghost use Rattle.half_sums.specs.Places.{AreBins};
ghost use Rattle.half_sums.specs.Blocks.{AreCosines};
ghost use Rattle.half_sums.specs.declared.block.TheConstants.{SHORT_LEVELS};
ghost use Rattle.half_sums.specs.declared.transforms.TheConstants.{LEAST_LEVELS, MOST_LEVELS};

use crate::block::{Block, SHORT_LEVELS};
use crate::exchange::{gather, scatter};
use crate::lanes::{gather_shares, place_sums, share_sums, whole_magnitude};
use crate::making::make_block;
use crate::silence::{is_silent, silence};
use model_synthesis::SCALE;
use number_transform::Multiplier;
use std::alloc::{AllocError, Global};
use std::marker::Model;

/// The smallest block has 2^5 bins.
pub const LEAST_LEVELS: u32 = 5;

/// The largest block has 2^12 bins.
pub const MOST_LEVELS: u32 = 12;

/// Whether the sums of a block are made faster in lanes: those of a short one, of which a fourth of
/// the bins are zero. The sums are the same either way.
fn in_lanes(levels: u32, spectrum: &[i64]) -> bool
    ensures { IsTrue result → levels ≤ SHORT_LEVELS }
{
    if levels > SHORT_LEVELS {
        return false;
    }
    spectrum.iter().filter(|bin| **bin == 0).count() > spectrum.len() / 4
}

/// What the half sums of blocks of each size, from 64 to 8,192 values, are made with: the cosines
/// of a quarter turn, and what is laid out from them.
#[derive(Debug, Drop)]
pub struct Transforms {
    cosines: Vec<u32>,
    multiplier: Multiplier,
    blocks: Vec<Block>,
}

impl Model for Transforms {
    ghost use Rattle.std.specs.Prelude.{ℕ, List};
    ghost use Rattle.half_sums.specs.Layouts.{IsLaidOut};

    ghost Value = { List ℕ };

    ghost view = { λ t. t.cosines.items };

    ghost invariant = { λ t. IsLaidOut t.cosines.items t.blocks.items };
}

impl Transforms {
    /// Lays out all sizes, from the cosines of a quarter turn in units of 2^-23.
    pub fn new(alloc: Global, cosines: Vec<u32>) -> Result<Self, AllocError>
        requires { AreCosines cosines.items }
        ensures { IfOk result (λ transforms. transforms ≡ cosines.items) }
    {
        let multiplier = Multiplier::new(alloc)?;
        let mut blocks = Vec::new(alloc);
        for levels in LEAST_LEVELS..MOST_LEVELS + 1 {
            blocks.push(make_block(alloc, &multiplier, &cosines, levels)?)?;
        }
        Ok(Transforms {
            cosines,
            multiplier,
            blocks,
        })
    }

    /// The cosines.
    pub fn cosines(&self) -> &[u32]
        ensures { result.now ≡ self.now }
    {
        &self.cosines
    }

    /// The sums of a block of 2^levels bins, over the memory that is handed in.
    fn sums_over(&self, levels: u32, values: &mut [u64], spectrum: &[i64], sums: &mut [i64])
        requires least { LEAST_LEVELS ≤ levels }
        requires most { levels ≤ MOST_LEVELS }
        requires values { length values.old ≡ 2 ^ levels }
        requires spectrum { length spectrum.now ≡ 2 ^ levels }
        requires sums { length sums.old ≡ 2 ^ levels }
        requires bins { AreBins spectrum.now }
        ensures { AreHalfSums self.now spectrum.now sums.new }
    {
        let block = &self.blocks[(levels - LEAST_LEVELS) as usize];
        gather(values, spectrum, &block.bins);
        self.multiplier.multiply(values, &block.factor, levels);
        scatter(sums, values, &block.sums);
    }

    /// The sums of a short block in lanes, over the memory that is handed in.
    fn lanes_over(&self, levels: u32, scratch: &mut [u64], spectrum: &[i64], sums: &mut [i64])
        requires least { LEAST_LEVELS ≤ levels }
        requires most { levels ≤ SHORT_LEVELS }
        requires scratch { length scratch.old ≡ 5 * 2 ^ levels }
        requires spectrum { length spectrum.now ≡ 2 ^ levels }
        requires sums { length sums.old ≡ 2 ^ levels }
        requires bins { AreBins spectrum.now }
        ensures { AreHalfSums self.now spectrum.now sums.new }
    {
        let block = &self.blocks[(levels - LEAST_LEVELS) as usize];
        let count = spectrum.len();
        let (magnitudes, rest) = scratch.split_at_mut(count);
        let (starts, rest) = rest.split_at_mut(count);
        let (values, kept) = rest.split_at_mut(count);
        gather_shares(magnitudes, starts, spectrum, &block.bins);
        share_sums(values, kept, magnitudes, starts, &block.waves);
        let raised = whole_magnitude(magnitudes) << SCALE;
        place_sums(sums, values, raised, &block.sums);
    }

    /// The half sums of a short block of 2^levels bins in lanes, as `half_sums` makes them.
    pub fn lane_sums(&self, levels: u32, spectrum: &[i64], sums: &mut [i64])
        requires least { LEAST_LEVELS ≤ levels }
        requires most { levels ≤ SHORT_LEVELS }
        requires spectrum { length spectrum.now ≡ 2 ^ levels }
        requires sums { length sums.old ≡ 2 ^ levels }
        requires bins { AreBins spectrum.now }
        ensures { AreHalfSums self.now spectrum.now sums.new }
    {
        let mut scratch = [0u64; 5 << SHORT_LEVELS];
        self.lanes_over(levels, &mut scratch[..5 * spectrum.len()], spectrum, sums);
    }

    /// The half sums of a short block by one product, over little memory.
    fn short_product(&self, levels: u32, spectrum: &[i64], sums: &mut [i64])
        requires least { LEAST_LEVELS ≤ levels }
        requires most { levels ≤ SHORT_LEVELS }
        requires spectrum { length spectrum.now ≡ 2 ^ levels }
        requires sums { length sums.old ≡ 2 ^ levels }
        requires bins { AreBins spectrum.now }
        ensures { AreHalfSums self.now spectrum.now sums.new }
    {
        let mut scratch = [0u64; 1 << SHORT_LEVELS];
        self.sums_over(levels, &mut scratch[..spectrum.len()], spectrum, sums);
    }

    /// The half sums of any block by one product.
    fn long_product(&self, levels: u32, spectrum: &[i64], sums: &mut [i64])
        requires least { LEAST_LEVELS ≤ levels }
        requires most { levels ≤ MOST_LEVELS }
        requires spectrum { length spectrum.now ≡ 2 ^ levels }
        requires sums { length sums.old ≡ 2 ^ levels }
        requires bins { AreBins spectrum.now }
        ensures { AreHalfSums self.now spectrum.now sums.new }
    {
        let mut scratch = [0u64; 1 << MOST_LEVELS];
        self.sums_over(levels, &mut scratch[..spectrum.len()], spectrum, sums);
    }

    /// The half sums of a block of 2^levels bins by one product of polynomials, as `half_sums`
    /// makes those of a long block, and of a short one of which few bins are zero.
    pub fn product_sums(&self, levels: u32, spectrum: &[i64], sums: &mut [i64])
        requires least { LEAST_LEVELS ≤ levels }
        requires most { levels ≤ MOST_LEVELS }
        requires spectrum { length spectrum.now ≡ 2 ^ levels }
        requires sums { length sums.old ≡ 2 ^ levels }
        requires bins { AreBins spectrum.now }
        ensures { AreHalfSums self.now spectrum.now sums.new }
    {
        if levels <= SHORT_LEVELS {
            self.short_product(levels, spectrum, sums);
        } else {
            self.long_product(levels, spectrum, sums);
        }
    }

    /// The sums of a block, zeros or none.
    fn sounding_sums(&self, spectrum: &[i64], sums: &mut [i64])
        requires size { IsBlockSize (2 * length spectrum.now) }
        requires sums { length sums.old ≡ length spectrum.now }
        requires bins { AreBins spectrum.now }
        ensures { AreHalfSums self.now spectrum.now sums.new }
    {
        let levels = spectrum.len().ilog2();
        if in_lanes(levels, spectrum) {
            self.lane_sums(levels, spectrum, sums);
        } else {
            self.product_sums(levels, spectrum, sums);
        }
    }

    /// The sums for the first and the third quarter of a block, before their division, from its
    /// spectrum: the bins are in units of 2^-20, and the sums in units of 2^-43, each within 2^62.
    pub fn half_sums(&self, spectrum: &[i64], sums: &mut [i64])
        requires size { IsBlockSize (2 * length spectrum.now) }
        requires sums { length sums.old ≡ length spectrum.now }
        requires bins { AreBins spectrum.now }
        ensures { AreHalfSums self.now spectrum.now sums.new }
    {
        if is_silent(spectrum) {
            silence(sums);
        } else {
            self.sounding_sums(spectrum, sums);
        }
    }
}
