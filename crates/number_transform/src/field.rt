//! Arithmetic modulo the prime 2^64 - 2^32 + 1, in residues from 0 up to it.
//!
//! Its order has the factor 2^32, so roots of unity of every power of two up to that are there, as
//! products of polynomials by halving want them.
ghost use Rattle.std.specs.Prelude.{◌≡◌, ◌+◌, ◌-◌, ◌*◌, ◌%◌, ◌^◌, ◌<◌, ◌≤◌, unsigned_abs};
ghost use Rattle.number_transform.specs.Field.{DifferenceUndoesSum, SmallNumbersDiffer, residue_of};
ghost use Rattle.number_transform.specs.declared.field.TheConstants.{PRIME};

/// The prime.
pub const PRIME: u64 = 0xffff_ffff_0000_0001;

/// The greatest half of a word. It is also what 2^64 leaves modulo the prime.
const HALF_WORD: u64 = 0xffff_ffff;

/// The greatest word.
const WORD: u128 = 0xffff_ffff_ffff_ffff;

/// A word less a number up to the prime, modulo the prime, where at most one prime is in it. The
/// compiler makes one subtraction of it, and one choice.
#[inline(always)]
fn less(a: u64, b: u64) -> u64
    requires b { b ≤ PRIME }
    requires a { a < PRIME + b }
    ensures value { result ≡ (a + (PRIME - b)) % PRIME }
    ensures below { result < PRIME }
{
    if a >= b { a - b } else { a + (PRIME - b) }
}

/// The sum of two residues.
#[inline]
pub fn add(a: u64, b: u64) -> u64
    requires a { a < PRIME }
    requires b { b < PRIME }
    ensures value { result ≡ (a + b) % PRIME }
    ensures below { result < PRIME }
{
    let sum = a.wrapping_add(b);
    if a < PRIME - b {
        sum
    } else {
        sum.wrapping_add(HALF_WORD)
    }
}

/// The difference of two residues: what makes the first one, added to the second.
#[inline]
pub fn subtract(a: u64, b: u64) -> u64
    requires a { a < PRIME }
    requires b { b < PRIME }
    ensures value { result ≡ (a + (PRIME - b)) % PRIME }
    ensures below { result < PRIME }
{
    less(a, b)
}

/// The product of two words.
#[inline]
pub fn multiply(a: u64, b: u64) -> u64
    ensures value { result ≡ (a * b) % PRIME }
    ensures below { result < PRIME }
{
    reduce(a as u128 * b as u128)
}

/// A difference that would be below zero, of numbers within half a word. It is a call of its own so
/// that it costs nothing where it isn't made, since it seldom is.
#[cold]
#[inline(never)]
fn subtract_small(a: u64, b: u64) -> u64
    requires a { a < b }
    requires b { b < 2 ^ 32 }
    ensures { result ≡ a + (PRIME - b) }
{
    a + (PRIME - b)
}

/// The residue of a double word: in it 2^64 counts as 2^32 - 1, and 2^96 as -1.
#[inline]
fn reduce(x: u128) -> u64
    ensures value { result ≡ x % PRIME }
    ensures below { result < PRIME }
{
    let low = (x & WORD) as u64;
    let high = (x >> 64) as u64;
    let top = high >> 32;
    let middle = high & HALF_WORD;
    let folded = if low >= top {
        low - top
    } else {
        subtract_small(low, top)
    };
    less(folded, PRIME - middle * HALF_WORD)
}

/// A word to a power, by squaring. The power 0 of each word is 1, that of 0 too.
pub fn power(base: u64, exponent: u64) -> u64
    ensures value { result ≡ (base ^ exponent) % PRIME }
    ensures below { result < PRIME }
{
    if exponent == 0 {
        return 1;
    }
    let square_part = power(multiply(base, base), exponent / 2);
    if exponent % 2 == 0 {
        square_part
    } else {
        multiply(square_part, base)
    }
}

/// The residue of a signed number: that of -1 is the prime less 1.
#[inline]
pub fn from_signed(number: i64) -> u64
    ensures value { result ≡ residue_of number }
    ensures below { result < PRIME }
{
    if number < 0 {
        PRIME - number.unsigned_abs()
    } else {
        number as u64
    }
}

/// The signed number nearest to 0 that has this residue.
#[inline]
pub fn to_signed(residue: u64) -> i64
    requires { residue < PRIME }
    ensures same { residue_of result ≡ residue }
    ensures near { 2 * unsigned_abs result < PRIME }
{
    if residue > PRIME / 2 {
        -((PRIME - residue) as i64)
    } else {
        residue as i64
    }
}

/// A law: the difference of two residues, added to the second, makes the first.
pub fn difference_undoes_sum()
    ensures { DifferenceUndoesSum }
{}

/// A law: signed numbers that are nearer to 0 than half of the prime, and have one residue, are
/// the same.
pub fn small_numbers_differ()
    ensures { SmallNumbersDiffer }
{}
