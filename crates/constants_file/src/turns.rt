ghost use Rattle.std.specs.Prelude.{◌≡◌, ◌≤◌, ◌<◌, ◌*◌, ◌%◌, ◌^◌, ℕ, length, slice_index, unsigned_abs, IfOk};
ghost use Rattle.model_setup.specs.HeaderPackets.{IsBlockSize};
ghost use Rattle.model_synthesis.specs.declared.constants.TheConstants.{COSINE_COUNT, SCALE};
ghost use Rattle.model_synthesis.specs.Tables.{first_quarter, quarters, turn_of, turns_of};

use memory::Sequence;
use model_synthesis::COSINE_COUNT;
use std::alloc::{AllocError, Global};

/// The cosines of the odd numbers of steps of one turn.
pub type Turn = Sequence<i32>;

/// The exponent of the smallest block size, 64.
pub const LEAST_EXPONENT: u32 = 6;

/// The exponent of the greatest block size, 8192.
const GREATEST_EXPONENT: u32 = 13;

/// The cosine in the first quarter of a turn, after so many steps.
fn first_quarter(cosines: &[u32], block: u32, u: u32) -> i32
    requires block { IsBlockSize block }
    requires within { u < block }
    requires count { length cosines.now ≡ COSINE_COUNT }
    requires numbers { (i : ℕ) → slice_index cosines.now i ≤ 2 ^ SCALE }
    ensures value { result ≡ first_quarter cosines.now block u }
    ensures small { unsigned_abs result ≤ 2 ^ SCALE }
{
    let step = COSINE_COUNT as u32 / block;
    cosines[(u * step) as usize] as i32
}

/// The cosine of an odd number of steps within one turn.
fn cosine(cosines: &[u32], block: u32, t: u32) -> i32
    requires block { IsBlockSize block }
    requires odd { t % 2 ≡ 1 }
    requires within { t < 4 * block }
    requires count { length cosines.now ≡ COSINE_COUNT }
    requires numbers { (i : ℕ) → slice_index cosines.now i ≤ 2 ^ SCALE }
    ensures { result ≡ quarters block (first_quarter cosines.now block) t }
{
    if t < block {
        first_quarter(cosines, block, t)
    } else if t < 2 * block {
        -first_quarter(cosines, block, 2 * block - t)
    } else if t < 3 * block {
        -first_quarter(cosines, block, t - 2 * block)
    } else {
        first_quarter(cosines, block, 4 * block - t)
    }
}

/// Lays out the turn of a block of this size.
fn lay_out_turn(alloc: Global, cosines: &[u32], block: u32) -> Result<Turn, AllocError>
    requires block { IsBlockSize block }
    requires count { length cosines.now ≡ COSINE_COUNT }
    requires numbers { (i : ℕ) → slice_index cosines.now i ≤ 2 ^ SCALE }
    ensures { IfOk result (λ turn. turn ≡ turn_of cosines.now block) }
{
    let mut turn = Vec::with_capacity(alloc, 2 * block as usize)?;
    for place in 0..2 * block {
        turn.push(cosine(cosines, block, 2 * place + 1))?;
    }
    Ok(Turn::of(turn))
}

/// Lays out the turns of all block sizes, the shortest first.
pub fn lay_out_turns(alloc: Global, cosines: &[u32]) -> Result<Vec<Turn>, AllocError>
    requires count { length cosines.now ≡ COSINE_COUNT }
    requires numbers { (i : ℕ) → slice_index cosines.now i ≤ 2 ^ SCALE }
    ensures { IfOk result (λ turns. turns.items ≡ turns_of cosines.now) }
{
    let mut turns = Vec::new(alloc);
    for exponent in LEAST_EXPONENT..GREATEST_EXPONENT + 1 {
        turns.push(lay_out_turn(alloc, cosines, 1 << exponent)?)?;
    }
    Ok(turns)
}
