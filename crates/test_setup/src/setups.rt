//! `setup_header`: setup packets and heads of audio packets as `tools/setups.py` writes them, and
//! films' own setup packets.

ghost use Rattle.std.specs.Prelude.{◌≤◌};

use setup_header::{Mapping, PacketHead, Setup, SetupCause, SetupFault, head};
use std::alloc::Global;
use std::process::Abort;

mod films;
mod rows;
mod written;

use films::{ONE_CHANNEL, SIX_CHANNELS, TWO_CHANNELS};
use rows::{ACCEPTED, HEADED, REFUSED};

/// What a setup holds; the coupling steps and submaps are those of its first mode's mapping.
struct Contents {
    books: usize,
    floors: usize,
    residues: usize,
    long_flags: &'static [bool],
    couplings: usize,
    submaps: usize,
}

/// A packet that is a setup packet.
struct Accepted {
    name: &'static str,
    channels: u8,
    packet: &'static [u8],
    contents: Contents,
}

/// A packet that is none, and why.
struct Refused {
    name: &'static str,
    channels: u8,
    packet: &'static [u8],
    cause: SetupCause,
    item: u32,
}

/// An audio packet, or another one.
struct Headed {
    name: &'static str,
    long_flags: &'static [bool],
    packet: &'static [u8],
    head: PacketHead,
}

/// Compares the lists of a mapping.
fn compare_mapping(rt: &impl Abort, mapping: &Mapping, row: &Accepted) {
    let couplings = mapping.couplings().len();
    assert_eq!(rt;
        couplings,
        row.contents.couplings,
        "{}: couplings",
        row.name
    );
    let submaps = mapping.submaps().len();
    assert_eq!(rt; submaps, row.contents.submaps, "{}: submaps", row.name);
    let channels = mapping.mux().len();
    assert_eq!(rt; channels, usize::from(row.channels), "{}: mux", row.name);
}

/// Reads a packet for the channels of a row, and compares what the setup holds.
fn read(rt: &impl Abort, alloc: Global, row: &Accepted, packet: &[u8]) -> Setup {
    assert!(rt; 1 <= row.channels && row.channels <= 8);
    let setup = match Setup::read(alloc, row.channels, packet) {
        Ok(setup) => setup,
        Err(fault) => panic!(rt; "{}: {fault}", row.name),
    };
    let want = &row.contents;
    assert_eq!(rt; setup.books().len(), want.books, "{}: books", row.name);
    assert_eq!(rt; setup.floors().len(), want.floors, "{}: floors", row.name);
    let residues = setup.residues().len();
    assert_eq!(rt; residues, want.residues, "{}: residues", row.name);
    assert!(rt;
        setup.long_flags() == want.long_flags,
        "{}: block flags",
        row.name
    );
    compare_mapping(rt, setup.mapping(0), row);
    setup
}

#[test]
fn reads_setups(rt: HostRuntime) {
    for row in &ACCEPTED {
        read(&rt, rt.alloc(), row, row.packet);
    }
}

#[test]
fn reads_films(rt: HostRuntime) {
    for row in [&ONE_CHANNEL, &TWO_CHANNELS, &SIX_CHANNELS] {
        read(&rt, rt.alloc(), row, row.packet);
    }
}

#[test]
fn refuses_by_the_first_cause(rt: HostRuntime) {
    for row in &REFUSED {
        assert!(rt; 1 <= row.channels && row.channels <= 8);
        let Err(fault) = Setup::read(rt.alloc(), row.channels, row.packet) else {
            panic!(rt; "{}: accepted", row.name);
        };
        let want = SetupFault::Bad {
            cause: row.cause,
            item: row.item,
        };
        assert_eq!(rt; fault, want, "{}", row.name);
    }
}

#[test]
fn tells_heads(rt: HostRuntime) {
    for row in &HEADED {
        assert!(rt; 1 <= row.long_flags.len() && row.long_flags.len() <= 64);
        assert_eq!(rt; head(row.long_flags, row.packet), row.head, "{}", row.name);
    }
}
