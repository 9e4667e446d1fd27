ghost use Rattle.std.specs.Prelude.{◌≡◌, ◌==◌, ◌*◌, ◌%◌, ◌^◌, ◌<◌, if◌then◌else◌, fold, replicate};
ghost use Rattle.model_ogg.specs.Checksum.{with_byte};
ghost use Rattle.ogg_pages.specs.Leaps.{xor_of_bits};

use crate::leap_tables::LEAPS;

/// How many bytes a slab has: registers are kept so far from each other.
pub const SLAB_LEN: usize = 64;

/// The word, where the lowest bit of the register is 1.
fn word_of_lowest(register: u32, word: u32) -> u32
    ensures { result ≡ (if register % 2 == 1 then word else 0) }
{
    if register % 2 == 1 { word } else { 0 }
}

/// The xor of those words whose bit of the register is 1.
#[tactic(auto, using(crate::proofs::Bits::bit_steps))]
fn xor_of_bits(register: u32, words: &[u32; 32]) -> u32
    ensures { result ≡ xor_of_bits register words.now }
{
    let mut sum = 0;
    let mut rest = register;
    for word in words {
        sum ^= word_of_lowest(rest, *word);
        rest /= 2;
    }
    sum
}

/// The register after as many slabs of bytes 0 as a digit of base 32 says, by its place among the
/// digits.
#[tactic(auto, using(crate::proofs::LeapRows::digit_law))]
fn digit_passed(register: u32, place: usize, digit: usize) -> u32
    requires place { place < 2 }
    requires digit { digit < 32 }
    ensures { result ≡ fold with_byte register (replicate (digit * 32 ^ place * SLAB_LEN) 0) }
{
    xor_of_bits(register, &LEAPS[place][digit])
}

/// The register after so many slabs of bytes 0.
#[tactic(auto, using(crate::proofs::Zeros::two_digits))]
pub fn slabs_passed(register: u32, slabs: usize) -> u32
    requires { slabs < 1024 }
    ensures { result ≡ fold with_byte register (replicate (slabs * SLAB_LEN) 0) }
{
    let low = digit_passed(register, 0, slabs % 32);
    digit_passed(low, 1, slabs / 32)
}
