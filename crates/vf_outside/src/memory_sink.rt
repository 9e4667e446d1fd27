ghost use Rattle.std.specs.Prelude.{◌≡◌, ◌≢◌, ◌<◌, ◌≤◌, Some, [], OnOk, true, false, length};
ghost use Rattle.std.specs.Io.KnownBytes.{Appends, Keeps};
ghost use Rattle.vf_outside.specs.Told.{AppendsPart};
ghost use Rattle.vf_outside.specs.Faults.{Rose};
ghost use Rattle.vf_outside.specs.Memory.{is_next_failing, after_put};

use crate::memory_shelf::is_next_failing;
use crate::sink::{PutFault, Sink};
use std::alloc::Global;
use std::marker::Model;

/// A sink in memory, whose calls with given numbers fail.
#[derive(Drop)]
pub struct MemSink {
    bytes: Vec<u8>,
    failing: Vec<u64>,
    calls: u64,
    faults: u64,
}

impl Model for MemSink {
    ghost use Rattle.vf_outside.specs.Memory.{SinkState};

    ghost Value = { SinkState };

    ghost view = { λ s. record {
      written = s.bytes.items;
      failing = s.failing.items;
      calls = s.calls;
      faults = s.faults;
    } };
}

impl MemSink {
    /// Begins with no bytes. `failing` lists the numbers of the calls that are to fail, counted
    /// from 1; a failing call appends nothing.
    pub fn new(alloc: Global, failing: Vec<u64>) -> Self
        ensures { result ≡ record { written = []; failing = failing.items; calls = 0; faults = 0 } }
    {
        MemSink {
            bytes: Vec::new(alloc),
            failing,
            calls: 0,
            faults: 0,
        }
    }

    /// Lends the bytes written so far.
    pub fn written(&self) -> &[u8]
        ensures { result.now ≡ self.now.written }
    {
        &self.bytes
    }
}

impl Sink for MemSink {
    ghost written = { λ s. Some s.written };

    ghost faults = { λ s. s.faults };

    /// Beside what every sink says: which calls fail, and the sink after each answer.
    fn put(&mut self, bytes: &[u8]) -> Result<(), PutFault>
        requires { 0 < length bytes.now }
        ensures ok { OnOk result (Appends (Some self.old.written) (Some self.new.written)
            bytes.now) }
        ensures failed { result ≡ Err PutFault.Failed → Rose self.old.faults self.new.faults }
        ensures part { result ≡ Err PutFault.Failed
            → AppendsPart (Some self.old.written) (Some self.new.written) bytes.now }
        ensures memory { result ≡ Err PutFault.Memory
            → Keeps (Some self.old.written) (Some self.new.written) }
        ensures later { self.old.faults ≤ self.new.faults }

        ensures listed { is_next_failing self.old.failing self.old.calls ≡ true
            → result ≡ Err PutFault.Failed }
        ensures not_listed { is_next_failing self.old.failing self.old.calls ≡ false
            → result ≢ Err PutFault.Failed }
        ensures after { self.new ≡ after_put self.old bytes.now result }
    {
        let is_failing = is_next_failing(&self.failing, self.calls);
        self.calls = self.calls.saturating_add(1);
        if is_failing {
            self.faults = self.faults.saturating_add(1);
            return Err(PutFault::Failed);
        }
        Ok(self.bytes.extend_from_slice(bytes)?)
    }
}
