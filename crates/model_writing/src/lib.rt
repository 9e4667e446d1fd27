//! The one form in which a setup packet is written, and that what is written so is read again
//! (Vorbis I, section 4.2.4): definitions that the contracts of the crates above cite, and laws.
#![tactic(auto)]

ghost use Rattle.model_writing.specs.SetupLaws.{SetupsReadBack, SetupFieldsHavePlaces};
ghost use Rattle.model_writing.specs.SetupLaws.{SetupPacketsReadBack, SetupsOfPacketsWereRead};

/// A law: a setup that was read of some bits, written in its one form, is read again as that setup,
/// whatever bits follow it.
pub fn rereads_written_setups()
    ensures { SetupsReadBack }
{}

/// A law: of a setup that was read of some bits, each number that is written has a place in its
/// width.
pub fn setup_fields_have_places()
    ensures { SetupFieldsHavePlaces }
{}

/// A law: a setup that was read of some bits, written in its one form into bytes, the last of which
/// is filled with 0, is the setup of the packet of these bytes, whatever bytes follow.
pub fn rereads_written_packets()
    ensures { SetupPacketsReadBack }
{}

/// A law: the setup of a packet that is accepted was read of some bits, so that the laws on written
/// setups speak of it.
pub fn setups_of_packets_were_read()
    ensures { SetupsOfPacketsWereRead }
{}
