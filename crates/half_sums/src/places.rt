ghost use Rattle.std.specs.Prelude.{◌≡◌, ◌≤◌, ◌<◌, ◌+◌, ◌-◌, ◌*◌, ◌/◌, ◌%◌, ◌^◌, ℕ, ℤ, length, slice_index, unsigned_abs};
ghost use Rattle.number_transform.specs.declared.field.TheConstants.{PRIME};
ghost use Rattle.number_transform.specs.Field.{residue_of};
ghost use Rattle.model_synthesis.specs.declared.constants.TheConstants.{COSINE_COUNT, SCALE};
ghost use Rattle.model_synthesis.specs.Tables.{wave, first_quarter};
ghost use Rattle.half_sums.specs.Places.{signed, IsNear, IsBinPlace, IsSumPlace, IsTurn};

use model_synthesis::COSINE_COUNT;
use number_transform::from_signed;

/// A place among the bins or the sums of a block, and whether what stands there counts with its
/// sign changed.
#[derive(Clone, Copy, Debug, PartialEq, Eq)]
pub struct Place {
    /// Below 4,096.
    pub index: u16,
    /// Whether the sign is changed.
    pub negative: bool,
}

/// The first step of a turn that is as far from a half turn as this one, and whether the waves have
/// the other sign there.
#[derive(Clone, Copy)]
struct Near {
    step: usize,
    negative: bool,
}

/// A number, or its negative.
#[inline]
pub fn with_sign(value: i64, negative: bool) -> i64
    requires { unsigned_abs value ≤ 2 ^ 63 - 1 }
    ensures { result ≡ signed negative value }
{
    if negative { -value } else { value }
}

/// The step of the first quarter at which a wave of so many steps a quarter has the same value, or
/// the opposite one.
fn nearest(size: usize, step: usize) -> Near
    requires size { IsTurn size step }
    ensures within { result.step < size }
    ensures odd { result.step % 2 ≡ 1 }
    ensures near { IsNear size step result.step }
    ensures same { (f : ℕ → ℤ) (x : ℕ) → x % 2 ≡ 1
        → wave size f (step * x) ≡ signed result.negative (wave size f (result.step * x)) }
{
    if step < size {
        Near {
            step,
            negative: false,
        }
    } else if step < 2 * size {
        Near {
            step: 2 * size - step,
            negative: true,
        }
    } else if step < 3 * size {
        Near {
            step: step - 2 * size,
            negative: true,
        }
    } else {
        Near {
            step: 4 * size - step,
            negative: false,
        }
    }
}

/// The place of the bin at a step.
pub fn bin_place(size: usize, step: usize) -> Place
    requires size { IsTurn size step }
    ensures { IsBinPlace size step result }
{
    let near = nearest(size, step);
    Place {
        index: (near.step / 2) as u16,
        negative: near.negative,
    }
}

/// The place of the half sum at a step.
pub fn sum_place(size: usize, step: usize) -> Place
    requires size { IsTurn size step }
    ensures { IsSumPlace size step result }
{
    let near = nearest(size, step);
    let half = size / 2;
    if near.step < half {
        Place {
            index: ((size - 1 - near.step) / 2) as u16,
            negative: !near.negative,
        }
    } else {
        Place {
            index: ((near.step - half - 1) / 2) as u16,
            negative: near.negative,
        }
    }
}

/// The cosine at a step.
pub fn cosine(cosines: &[u32], size: usize, step: usize) -> i64
    requires size { IsTurn size step }
    requires count { length cosines.now ≡ COSINE_COUNT }
    requires small { (i : ℕ) → slice_index cosines.now i ≤ 2 ^ SCALE }
    ensures value { result ≡ wave size (first_quarter cosines.now size) step }
    ensures small { unsigned_abs result ≤ 2 ^ SCALE }
{
    let near = nearest(size, step);
    let value = i64::from(cosines[near.step * (COSINE_COUNT / size)]);
    with_sign(value, near.negative)
}

/// The residue of the cosine at a step.
pub fn cosine_residue(cosines: &[u32], size: usize, step: usize) -> u64
    requires size { IsTurn size step }
    requires count { length cosines.now ≡ COSINE_COUNT }
    requires small { (i : ℕ) → slice_index cosines.now i ≤ 2 ^ SCALE }
    ensures value { result ≡ residue_of (wave size (first_quarter cosines.now size) step) }
    ensures below { result < PRIME }
{
    from_signed(cosine(cosines, size, step))
}
