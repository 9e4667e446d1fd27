ghost use Rattle.std.specs.Prelude.{◌≡◌, [], ◌∷◌, Ok, Err, MatchResult, true, false};
ghost use Rattle.std.specs.List.{list_all};
ghost use Rattle.std.specs.Char.{is_ascii_digit};
ghost use Rattle.model_script.specs.Lines.{words_of, verb_of, is_plain, is_number, value_of};
ghost use Rattle.player_script.specs.Words.{words_behind, numbers_of};

use memchr::memchr;
use model_script::{LineCause, SPACE, Verb};

/// The first word of a line, and what is behind the space that ends it, if one does.
pub fn split_word(line: &[u8]) -> (&[u8], Option<&[u8]>)
    ensures { words_of line.now ≡ result.0.now ∷ words_behind result.1 }
{
    match memchr(SPACE, line) {
        Some(place) => (&line[..place], Some(&line[place + 1..])),
        None => (line, None),
    }
}

/// The first word of a line that is written so.
pub fn verb(word: &[u8]) -> Option<Verb>
    ensures { result ≡ verb_of word.now }
{
    match word {
        b"lane" => Some(Verb::Lane),
        b"open" => Some(Verb::Open),
        b"read" => Some(Verb::Read),
        b"seek" => Some(Verb::Seek),
        b"lap" => Some(Verb::Lap),
        b"cross" => Some(Verb::Cross),
        b"tell" => Some(Verb::Tell),
        b"close" => Some(Verb::Close),
        _ => None,
    }
}

/// Each byte is a digit.
fn are_digits(word: &[u8]) -> bool
    ensures { result ≡ list_all is_ascii_digit word.now }
{
    word.iter().all(|byte| byte.is_ascii_digit())
}

/// A word is plain decimal: digits alone, without a leading zero.
fn is_plain(word: &[u8]) -> bool
    ensures { result ≡ is_plain word.now }
{
    match word {
        [] => false,
        [digit] => digit.is_ascii_digit(),
        [digit, ..] => *digit != b'0' && are_digits(word),
    }
}

/// The number that a word is: plain decimal, without a leading zero, below 2^64.
///
/// # Errors
///
/// `Number` where the word is none.
pub fn number(word: &[u8]) -> Result<u64, LineCause>
    ensures { MatchResult result
        (λ n. (is_number word.now ≡ true) × (n ≡ value_of word.now))
        (λ cause. (is_number word.now ≡ false) × (cause ≡ LineCause.Number)) }
{
    if !is_plain(word) {
        return Err(LineCause::Number);
    }
    let Ok(digits) = str::from_utf8(word) else {
        return Err(LineCause::Number);
    };
    let Ok(number) = digits.parse() else {
        return Err(LineCause::Number);
    };
    Ok(number)
}

/// Refuses words where there should be none.
pub fn no_number(words: Option<&[u8]>) -> Result<(), LineCause>
    ensures { MatchResult result
        (λ _. numbers_of 0 (words_behind words.entry) ≡ Ok [])
        (λ cause. numbers_of 0 (words_behind words.entry) ≡ Err cause) }
{
    match words {
        Some(_) => Err(LineCause::Count),
        None => Ok(()),
    }
}

/// The number that the words are.
pub fn one_number(words: Option<&[u8]>) -> Result<u64, LineCause>
    ensures { MatchResult result
        (λ n. numbers_of 1 (words_behind words.entry) ≡ Ok (n ∷ []))
        (λ cause. numbers_of 1 (words_behind words.entry) ≡ Err cause) }
{
    let Some(words) = words else {
        return Err(LineCause::Count);
    };
    let (word, more) = split_word(words);
    no_number(more)?;
    number(word)
}

/// The two numbers that the words are.
pub fn two_numbers(words: Option<&[u8]>) -> Result<(u64, u64), LineCause>
    ensures { MatchResult result
        (λ both. numbers_of 2 (words_behind words.entry) ≡ Ok (both.0 ∷ both.1 ∷ []))
        (λ cause. numbers_of 2 (words_behind words.entry) ≡ Err cause) }
{
    let Some(words) = words else {
        return Err(LineCause::Count);
    };
    let (first, Some(words)) = split_word(words) else {
        return Err(LineCause::Count);
    };
    let (second, more) = split_word(words);
    no_number(more)?;
    Ok((number(first)?, number(second)?))
}
