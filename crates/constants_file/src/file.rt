ghost use Rattle.std.specs.Prelude.{◌≡◌, ◌≤◌, ◌<◌, ◌+◌, ◌*◌, ◌^◌, length, Err, None, IfOk, MatchResult};
ghost use Rattle.model_synthesis.specs.declared.constants.TheConstants.{DECIBEL_COUNT, SLOPE_COUNT, COSINE_COUNT};
ghost use Rattle.model_synthesis.specs.ConstantsFile.{number_at, number_count, greatest_at, numbers_of, first_past, section, tables_in, constants_of};

use byteorder::{ByteOrder, LittleEndian};
use model_synthesis::{
    CONSTANTS_SIZE, CONSTANTS_WORD, ConstantsFault, DECIBEL_COUNT, GREATEST_DECIBEL, SCALE,
};
use std::alloc::{AllocError, Global};

/// What stands behind the word of a file that has the word and the size of a constants file.
#[tactic(auto, unfolding(model_synthesis::specs::ConstantsFile::constants_of))]
pub fn file_body(bytes: &[u8]) -> Result<&[u8], ConstantsFault>
    ensures read { MatchResult result
        (λ body. constants_of bytes.now ≡ tables_in body.now)
        (λ fault. constants_of bytes.now ≡ Err fault) }
    ensures size { IfOk result
        (λ body. length body.now ≡ 4 * (DECIBEL_COUNT + SLOPE_COUNT + COSINE_COUNT)) }
{
    if !bytes.starts_with(&CONSTANTS_WORD) {
        return Err(ConstantsFault::Magic);
    }
    if bytes.len() != CONSTANTS_SIZE {
        return Err(ConstantsFault::Length { n: bytes.len() });
    }
    Ok(&bytes[CONSTANTS_WORD.len()..])
}

/// The number of this index.
fn number_at(body: &[u8], index: usize) -> u32
    requires { index < number_count body.now }
    ensures { result ≡ number_at body.now index }
{
    LittleEndian::read_u32(&body[4 * index..])
}

/// The greatest value that the number of this index may have.
fn greatest_at(index: usize) -> u32
    ensures { result ≡ greatest_at index }
{
    if index < DECIBEL_COUNT {
        GREATEST_DECIBEL
    } else {
        1 << SCALE
    }
}

/// Refuses the first number that is past its greatest value.
pub fn check_ranges(body: &[u8]) -> Result<(), ConstantsFault>
    requires { length body.now < 2 ^ 32 }
    ensures { MatchResult result
        (λ _. first_past body.now ≡ None)
        (λ fault. tables_in body.now ≡ Err fault) }
{
    for index in 0..body.len() / 4 {
        let value = number_at(body, index);
        if value > greatest_at(index) {
            return Err(ConstantsFault::Range {
                index: index as u32,
                value,
            });
        }
    }
    Ok(())
}

/// So many numbers, from an index on.
pub fn read_section(
    alloc: Global,
    body: &[u8],
    first: usize,
    count: usize,
) -> Result<Vec<u32>, AllocError>
    requires { first + count ≤ number_count body.now }
    ensures { IfOk result (λ numbers. numbers.items
        ≡ section (numbers_of body.now) first count) }
{
    let mut numbers = Vec::with_capacity(alloc, count)?;
    for index in first..first + count {
        numbers.push(number_at(body, index))?;
    }
    Ok(numbers)
}
