//! What the bits of a packet are, and how fields are read from them up to the first cause of a
//! refusal, and written (Vorbis I, section 2): definitions that the contracts of the crates above
//! cite.
#![tactic(auto)]

ghost use Rattle.model_bits.specs.Places.{TakesByPlace, ReadsWhatWasWritten};
ghost use Rattle.model_bits.specs.Writing.{FieldsReadBack, BytesReadBack};

/// A law: bits are taken as their places say. The bit at a place is a digit of the byte there, and
/// a number is the sum of its bits, each by its power of two.
pub fn takes_by_place()
    ensures { TakesByPlace }
{}

/// A law: a number that was written is read again, whatever bits follow it.
pub fn reads_what_was_written()
    ensures { ReadsWhatWasWritten }
{}

/// A law: fields that were written one after the other are read again in the same order, each by
/// its width, whatever bits follow them.
pub fn reads_written_fields()
    ensures { FieldsReadBack }
{}

/// A law: fields that were written into bytes, the last of which is filled with 0, are read again
/// from these bytes, whatever bytes follow.
pub fn reads_written_bytes()
    ensures { BytesReadBack }
{}
