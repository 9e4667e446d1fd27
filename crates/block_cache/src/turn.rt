use film_blocks::HalfBlock;
use model_replay::How;

/// What a turn of an errand answers.
#[derive(Debug, Drop)]
pub enum Turn {
    /// The errand has further turns.
    Going,
    /// The errand is done, with the half that was asked for, if one was.
    Done { half: Option<HalfBlock>, how: How },
    /// No memory was found. The errand is over, and holds nothing.
    Memory,
}
