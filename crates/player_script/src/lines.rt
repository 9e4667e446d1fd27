ghost use Rattle.std.specs.Prelude.{◌≡◌, ◌≢◌, IfOk, MatchResult, None, Some, nat_le, true, false};
ghost use Rattle.model_script.specs.Lines.{words_of, line_of, cause_of, is_in, cursors, counts};
ghost use Rattle.player_script.specs.Words.{words_behind, said_by};
ghost use Rattle.player_script.specs.Steps.{IsRightLine};

use crate::words::{no_number, one_number, split_word, two_numbers, verb};
use model_script::{Command, GREATEST_CURSOR, GREATEST_READ, Line, LineCause, Verb};

/// The cursor of this number.
fn cursor(number: u64) -> Result<u8, LineCause>
    ensures { MatchResult result
        (λ c. (is_in (cursors, number) ≡ true) × (c ≡ number))
        (λ cause. (is_in (cursors, number) ≡ false) × (cause ≡ LineCause.Range)) }
{
    if number > u64::from(GREATEST_CURSOR) {
        return Err(LineCause::Range);
    }
    Ok(number as u8)
}

/// How many frames a read of this number asks for.
fn frames(number: u64) -> Result<u32, LineCause>
    ensures { MatchResult result
        (λ n. (is_in (counts, number) ≡ true) × (n ≡ number))
        (λ cause. (is_in (counts, number) ≡ false) × (cause ≡ LineCause.Range)) }
{
    if number < 1 || number > u64::from(GREATEST_READ) {
        return Err(LineCause::Range);
    }
    Ok(number as u32)
}

/// What a line of this verb says with these words behind it.
fn line_by(verb: Verb, words: Option<&[u8]>) -> Result<Line, LineCause>
    ensures says { result ≡ said_by verb (words_behind words.entry) }
    ensures right { IfOk result IsRightLine }
{
    let command = match verb {
        Verb::Lane => {
            no_number(words)?;
            return Ok(Line::Lane);
        }
        Verb::Open => Command::Open {
            c: cursor(one_number(words)?)?,
        },
        Verb::Read => {
            let (c, n) = two_numbers(words)?;
            Command::Read {
                c: cursor(c)?,
                n: frames(n)?,
            }
        }
        Verb::Seek => {
            let (c, p) = two_numbers(words)?;
            Command::Seek { c: cursor(c)?, p }
        }
        Verb::Lap => {
            let (c, p) = two_numbers(words)?;
            Command::Lap { c: cursor(c)?, p }
        }
        Verb::Cross => {
            let (c, d) = two_numbers(words)?;
            Command::Cross {
                c: cursor(c)?,
                d: cursor(d)?,
            }
        }
        Verb::Tell => Command::Tell {
            c: cursor(one_number(words)?)?,
        },
        Verb::Close => Command::Close {
            c: cursor(one_number(words)?)?,
        },
    };
    Ok(Line::Gives { command })
}

/// What a line says, or the first cause why it is refused; a lane has begun before it, or not.
pub fn line(line: &[u8], begun: bool) -> Result<Line, LineCause>
    ensures says { MatchResult result
        (λ says. (cause_of begun (words_of line.now) ≡ None)
        × (line_of (words_of line.now) ≡ Some says))
        (λ cause. cause_of begun (words_of line.now) ≡ Some cause) }
    ensures begun { IfOk result (λ says. says ≢ Line.Lane → begun ≡ true) }
    ensures right { IfOk result IsRightLine }
{
    let (word, words) = split_word(line);
    let Some(verb) = verb(word) else {
        return Err(LineCause::Word);
    };
    if !begun && verb != Verb::Lane {
        return Err(LineCause::NoLane);
    }
    line_by(verb, words)
}
