ghost use Rattle.std.specs.Prelude.{◌≡◌};
ghost use Rattle.model_setup.specs.SetupCauses.{start_fault, book_fault, floor_fault, residue_fault};

use model_setup::{BookFault, FloorFault, ResidueFault, SetupCause, SetupFault, StartCause};

/// The end of the packet, which is no item's.
pub const END: SetupFault = SetupFault::Bad {
    cause: SetupCause::End,
    item: 0,
};

/// The packet is refused by this cause at this item.
pub fn bad(cause: SetupCause, item: u32) -> SetupFault
    ensures { result ≡ SetupFault.Bad cause item }
{
    SetupFault::Bad { cause, item }
}

/// Why a packet doesn't begin as a setup packet.
pub fn start_fault(cause: StartCause) -> SetupFault
    ensures { result ≡ start_fault cause }
{
    match cause {
        StartCause::Kind => bad(SetupCause::Kind, 0),
        StartCause::End => END,
    }
}

/// Why the codebook of this number could not be read.
pub fn book_fault(number: u32, fault: BookFault) -> SetupFault
    ensures { result ≡ book_fault number fault }
{
    let cause = match fault {
        BookFault::End => return END,
        BookFault::Sync => SetupCause::BookSync,
        BookFault::Tree => SetupCause::BookTree,
        BookFault::Lookup => SetupCause::BookLookup,
        BookFault::Limit => SetupCause::BookLimit,
        BookFault::Memory => return SetupFault::Memory,
    };
    bad(cause, number)
}

/// Why the floor of this number could not be read.
pub fn floor_fault(number: u32, fault: FloorFault) -> SetupFault
    ensures { result ≡ floor_fault number fault }
{
    let cause = match fault {
        FloorFault::End => return END,
        FloorFault::Book => SetupCause::FloorBook,
        FloorFault::List => SetupCause::FloorList,
    };
    bad(cause, number)
}

/// Why the residue of this number could not be read.
pub fn residue_fault(number: u32, fault: ResidueFault) -> SetupFault
    ensures { result ≡ residue_fault number fault }
{
    let cause = match fault {
        ResidueFault::Kind => SetupCause::ResidueKind,
        ResidueFault::End => return END,
        ResidueFault::Book => SetupCause::ResidueBook,
        ResidueFault::Memory => return SetupFault::Memory,
    };
    bad(cause, number)
}
