ghost use Rattle.std.specs.Prelude.{◌≡◌, ◌≤◌, ◌<◌, ◌^◌, ◌*◌, ◌-◌, ◌*ℤ◌, pos, unsigned_abs};
ghost use Rattle.model_fixed.specs.Fixed.{IsWithinLimit, limited, fix, shift_down, mantissa, exponent, is_below_zero, with_sign};

use model_fixed::VALUE_LIMIT;

/// The greatest value, as a number with a sign.
pub const LIMIT: i64 = VALUE_LIMIT as i64;

/// The number times a power of 2, limited as a value is.
fn scaled_up(number: i64, shift: u32) -> i64
    requires { unsigned_abs number ≤ 2 ^ 53 }
    ensures { result ≡ limited (number *ℤ pos (2 ^ shift)) }
{
    number
        .saturating_mul(1 << shift.min(33))
        .clamp(-LIMIT, LIMIT)
}

/// The number divided by a power of 2, rounded down and limited as a value is.
fn scaled_down(number: i64, shift: u32) -> i64
    requires { unsigned_abs number ≤ 2 ^ 53 }
    ensures { result ≡ limited (shift_down number shift) }
{
    (number >> shift.min(63)).clamp(-LIMIT, LIMIT)
}

/// A magnitude with a sign.
fn with_sign(below: bool, magnitude: u64) -> i64
    requires { magnitude ≤ 2 ^ 53 }
    ensures value { result ≡ with_sign below magnitude }
    ensures small { unsigned_abs result ≤ 2 ^ 53 }
{
    if below {
        -(magnitude as i64)
    } else {
        magnitude as i64
    }
}

/// A whole number times the mantissa of a packed number.
fn magnitude(factor: u32, packed: u32) -> u64
    ensures value { result ≡ factor * mantissa packed }
    ensures small { result ≤ 2 ^ 53 }
{
    u64::from(factor) * u64::from(packed % (1 << 21))
}

/// A whole number times a packed number, in units of 2^-16, rounded down and limited as a value is.
#[tactic(auto, unfolding(model_fixed::specs::Fixed::fix))]
pub fn fix(factor: u32, packed: u32) -> i64
    ensures value { result ≡ fix factor packed }
    ensures small { IsWithinLimit result }
{
    let number = with_sign(packed >> 31 == 1, magnitude(factor, packed));
    let exponent = (packed >> 21) % (1 << 10);
    if exponent >= 772 {
        scaled_up(number, exponent - 772)
    } else {
        scaled_down(number, 772 - exponent)
    }
}
