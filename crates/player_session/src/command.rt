ghost use Rattle.std.specs.Prelude.{◌≡◌, map, string_bytes, option_map};
ghost use Rattle.model_script.specs.Lines.{Range};
ghost use Rattle.model_player.specs.Commands.{number_in, number_of, counts_of, trial_of, command_of};
ghost use Rattle.player_session.specs.Words.{command_named};

use model_script::{Counts, LEAST_SETUPS, LEAST_SLOTS, MOST_HELPERS, MOST_SETUPS, MOST_SLOTS};
use player_script::number;

/// A command, with the names of its files, or with the number that its inputs are made of.
#[derive(Clone, Copy)]
pub enum Command<'a> {
    Info { film: &'a str },
    Dump { constants: &'a str, film: &'a str },
    Play(Play<'a>),
    Trial { number: u64, counts: Counts },
}

/// A script that is played over a film: the names of the files, and the counts.
#[derive(Clone, Copy)]
pub struct Play<'a> {
    pub constants: &'a str,
    pub film: &'a str,
    pub script: &'a str,
    pub counts: Counts,
}

/// The number that a word is, where it is one from `least` to `greatest`.
fn number_in(word: &str, least: u32, greatest: u32) -> Option<u32>
    ensures { result ≡ number_in record { least = least; greatest = greatest } word.now }
{
    match number(word.as_bytes()) {
        Ok(number) if u64::from(least) <= number && number <= u64::from(greatest) => {
            Some(number as u32)
        }
        _ => None,
    }
}

/// The counts of a play by its last three words.
#[tactic(auto, using(crate::proofs::Counts::counts_laws))]
fn counts_of(helpers: &str, slots: &str, setups: &str) -> Option<Counts>
    ensures { result ≡ counts_of helpers.now slots.now setups.now }
{
    Some(Counts {
        helpers: number_in(helpers, 0, MOST_HELPERS)?,
        slots: number_in(slots, LEAST_SLOTS, MOST_SLOTS)?,
        setups: number_in(setups, LEAST_SETUPS, MOST_SETUPS)?,
    })
}

/// The number that a word is, where it is one.
fn number_of(word: &str) -> Option<u64>
    ensures { result ≡ number_of word.now }
{
    number(word.as_bytes()).ok()
}

/// The trial of a number word and of three words of counts.
#[tactic(auto, using(crate::proofs::Counts::trial_laws))]
fn trial_of<'a>(number: &str, helpers: &str, slots: &str, setups: &str) -> Option<Command<'a>>
    ensures { option_map command_named result
        ≡ trial_of number.now helpers.now slots.now setups.now }
{
    let number = number_of(number)?;
    let counts = counts_of(helpers, slots, setups)?;
    Some(Command::Trial { number, counts })
}

/// The command that words ask for.
pub fn command_of(words: &[String]) -> Option<Command<'_>>
    ensures { option_map command_named result ≡ command_of (map string_bytes words.now) }
{
    match words {
        [word, film] if word.as_str() == "info" => Some(Command::Info {
            film: film.as_str(),
        }),
        [word, constants, film] if word.as_str() == "dump" => Some(Command::Dump {
            constants: constants.as_str(),
            film: film.as_str(),
        }),
        [word, number, helpers, slots, setups] if word.as_str() == "trial" => trial_of(
            number.as_str(),
            helpers.as_str(),
            slots.as_str(),
            setups.as_str(),
        ),
        [word, constants, film, script, helpers, slots, setups] if word.as_str() == "play" => {
            let counts = counts_of(helpers.as_str(), slots.as_str(), setups.as_str())?;
            Some(Command::Play(Play {
                constants: constants.as_str(),
                film: film.as_str(),
                script: script.as_str(),
                counts,
            }))
        }
        _ => None,
    }
}
