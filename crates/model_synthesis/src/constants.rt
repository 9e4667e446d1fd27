ghost use Rattle.std.specs.Prelude.{◌≡◌};
ghost use Rattle.model_synthesis.specs.declared.constants.ConstantsFault.TheVariants.{Memory};

use std::alloc::{AllocError, AllocFailed};
use std::error::Error;
use std::fmt;

/// What a constants file begins with.
pub const CONSTANTS_WORD: [u8; 8] = [b'V', b'F', b'C', b'O', b'N', b'S', b'T', b'1'];

/// How many decibel values there are: the first numbers of the file.
pub const DECIBEL_COUNT: usize = 256;

/// How many slope values there are, of all sizes together: the numbers behind the decibel values.
pub const SLOPE_COUNT: usize = 8160;

/// How many cosines of a quarter turn there are: the last numbers of the file.
pub const COSINE_COUNT: usize = 8192;

/// How many bytes a constants file has: its word, and four for each number.
pub const CONSTANTS_SIZE: usize = 8 + 4 * (DECIBEL_COUNT + SLOPE_COUNT + COSINE_COUNT);

/// The greatest decibel value: 1 in units of 2^-30.
pub const GREATEST_DECIBEL: u32 = 1 << 30;

/// Slopes and cosines are in units of 2^-23, and at most 1.
pub const SCALE: u32 = 23;

/// The size of the shortest slope. Each further one is twice as long.
pub const SMALLEST_SLOPE: u32 = 32;

/// Why a constants file could not be read: the first of these causes, or no memory.
#[derive(Clone, Copy, Debug, PartialEq, Eq)]
pub enum ConstantsFault {
    /// The file begins otherwise than a constants file does.
    Magic,
    /// The file has `n` bytes, which are not as many as a constants file has.
    Length { n: usize },
    /// This number of the file, counted from 0 behind its word, has a value above the greatest that
    /// it may have. It is the first such number.
    Range { index: u32, value: u32 },
    /// No memory was found.
    Memory,
}

impl fmt::Display for ConstantsFault {
    ghost use Rattle.std.specs.Prelude.{Some};
    ghost use Rattle.model_synthesis.specs.ConstantsTexts.{constants_fault_text};

    ghost output = { λ fault. Some (constants_fault_text fault) };

    fn fmt<W: fmt::Write>(&self, f: &mut fmt::Formatter<W>) -> fmt::Result {
        match *self {
            ConstantsFault::Magic => write!(f, "constants magic"),
            ConstantsFault::Length { n } => write!(f, "constants length {n}"),
            ConstantsFault::Range { index, value } => {
                write!(f, "constants range {index} {value}")
            }
            ConstantsFault::Memory => write!(f, "out of memory"),
        }
    }
}

impl Error for ConstantsFault {}

impl From<AllocError> for ConstantsFault {
    ghost from_gives = { λ _ fault. fault ≡ Memory };

    fn from(_: AllocError) -> Self {
        ConstantsFault::Memory
    }
}

impl<T: Drop> From<AllocFailed<T>> for ConstantsFault {
    ghost from_gives = { λ _ fault. fault ≡ Memory };

    fn from(_: AllocFailed<T>) -> Self {
        ConstantsFault::Memory
    }
}
