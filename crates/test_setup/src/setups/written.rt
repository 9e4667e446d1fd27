//! Setups that are written, and read again.

use super::films::{ONE_CHANNEL, SIX_CHANNELS, TWO_CHANNELS};
use super::rows::ACCEPTED;
use super::{Accepted, read};
use setup_header::{Setup, setup_bytes};
use std::alloc::Global;
use std::process::Abort;

/// The smallest setup as it is written, printed by `tools/setups.py smallest`.
const SMALLEST: &[u8] =
    b"\x05vorbis\x00BCV\x01\x00\x01\x00\x00\x80\x08\x00\x00\x12\x03\x00\x00\x00x\
                    \x00\x00\x00\x00\x00\x10\x00\x00( \x00\x00\x00\x00 \x00\x00\x00\x00\x00\x00\x00\
                    \x08\x00\x00\x00\x00\x00\x00\x00\x00\x00\x00\x00\x00\x00\x01";

/// The bytes of a setup, for which there is memory.
fn written(rt: &impl Abort, alloc: Global, setup: &Setup, name: &str) -> Vec<u8> {
    match setup_bytes(alloc, setup) {
        Ok(bytes) => bytes,
        Err(_) => panic!(rt; "{name}: no memory"),
    }
}

/// Reads the packet of a row, writes the setup, and reads it again: it holds the same, and is
/// written the same again.
fn rewrites(rt: &impl Abort, alloc: Global, row: &Accepted) {
    let setup = read(rt, alloc, row, row.packet);
    let bytes = written(rt, alloc, &setup, row.name);
    let again = read(rt, alloc, row, &bytes);
    let bytes_again = written(rt, alloc, &again, row.name);
    assert!(rt; bytes == bytes_again, "{}: another setup", row.name);
}

#[test]
fn rewrites_setups(rt: HostRuntime) {
    for row in &ACCEPTED {
        rewrites(&rt, rt.alloc(), row);
    }
}

// the last of them has sparse books, lattices, floors with classes, two submaps and coupling
#[test]
fn rewrites_films(rt: HostRuntime) {
    for row in [&ONE_CHANNEL, &TWO_CHANNELS, &SIX_CHANNELS] {
        rewrites(&rt, rt.alloc(), row);
    }
}

#[test]
fn writes_the_smallest(rt: HostRuntime) {
    let row = &ACCEPTED[0];
    let setup = read(&rt, rt.alloc(), row, row.packet);
    let bytes = written(&rt, rt.alloc(), &setup, row.name);
    assert!(rt; bytes.as_slice() == SMALLEST, "{}: other bytes", row.name);
}
