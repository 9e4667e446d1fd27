ghost use Rattle.std.specs.Prelude.{◌≡◌, ◌∷◌, OnOk, OnErr, codes};
ghost use Rattle.std.specs.List.{flat_map};
ghost use Rattle.model_bits.specs.Reading.{bits as bits_at, leaving, relabel};
ghost use Rattle.model_setup.specs.HeaderPackets.{bytes_at, start_at};
ghost use Rattle.model_setup.specs.SetupCauses.{start_fault};
ghost use Rattle.model_bits.specs.Writing.{in_bits};
ghost use Rattle.setup_fields.specs.Puts.{ArePut, IsFrontOf};

use crate::faults::start_fault;
use bit_reader::{Bits, BitsOut, NoMemory};
use model_setup::{SetupFault, StartCause};
use setup_fields::put_bytes;

/// The bytes that a setup packet begins with: its type, 5, and the word that all header packets
/// have (Vorbis I, section 4.2.1).
const START: [u8; 7] = *b"\x05vorbis";

/// Reads a byte.
fn read_byte(bits: &mut Bits) -> Result<u32, StartCause>
    ensures read { bits_at StartCause.End 8 bits.old.left ≡ leaving bits.new.left (λ n. n) result }
    ensures bytes { bits.new.total ≡ bits.old.total }
{
    bits.take(8).ok_or(StartCause::End)
}

/// Reads bytes that must be these.
fn read_bytes(bits: &mut Bits, wanted: &[u8]) -> Result<(), StartCause>
    ensures read { bytes_at wanted.now bits.old.left ≡ leaving bits.new.left (λ _. 0) result }
    ensures bytes { bits.new.total ≡ bits.old.total }
{
    for byte in wanted {
        let found = read_byte(bits)?;
        if found != u32::from(*byte) {
            return Err(StartCause::Kind);
        }
    }
    Ok(())
}

/// Reads the start of a setup packet.
pub fn read_start(bits: &mut Bits) -> Result<(), SetupFault>
    ensures read { relabel start_fault (start_at 5) bits.old.left
        ≡ leaving bits.new.left (λ _. 0) result }
    ensures bytes { bits.new.total ≡ bits.old.total }
{
    read_bytes(bits, &START).map_err(start_fault)
}

/// Writes the start of a setup packet.
pub fn write_start(out: &mut BitsOut) -> Result<(), NoMemory>
    ensures put { OnOk result
        (ArePut out.old out.new (flat_map (in_bits 8) (5 ∷ codes "vorbis"))) }
    ensures kept { OnErr result (IsFrontOf out.old out.new) }
{
    put_bytes(out, 8, &START)
}
