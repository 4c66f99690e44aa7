//! A sink in memory, which can be told to fail.

ghost use Rattle.std.specs.Prelude.{◌≡◌, ◌<◌, ◌≤◌, Some, [], length, take, IfOk, OnErr};
ghost use Rattle.cxl_enc.specs.Faults.{HasCause};
ghost use Rattle.cxl_enc.specs.Counters.{fresh_counters};
ghost use Rattle.cxl_io.specs.MemorySink.{state_of, write_answer, sink_after};
ghost use Rattle.cxl_io.specs.Sink.{Takes};

use crate::sink::Sink;
use cxl_enc::{Failed, FailingCalls, Memory};
use std::alloc::Global;
use std::marker::Model;

/// A sink in memory, which tells what it took. A write takes the bytes that have room, and fails where
/// none is left. It can also be told to fail at some of its calls.
#[derive(Drop)]
pub struct MemSink {
    taken: Vec<u8>,
    room: u32,
    counters: FailingCalls,
}

impl Model for MemSink {
    ghost use Rattle.std.specs.Prelude.{◌≤◌, vec_len, vec_capacity};
    ghost use Rattle.cxl_io.specs.MemorySink.{MemorySink};

    ghost Value = { MemorySink };

    ghost view = { λ s. record { bytes = s.taken.items; room = s.room; counters = s.counters } };

    ghost invariant = { λ s. (vec_len s.taken ≤ s.room) × (s.room ≤ vec_capacity s.taken) };
}

impl MemSink {
    /// A sink with room for so many bytes, and the numbers of the writes that fail, counted from 1.
    pub fn new(alloc: Global, room: u32, fails: Vec<u64>) -> Result<MemSink, Memory>
        ensures { IfOk result (λ sink.
            sink ≡ record { bytes = []; room = room; counters = fresh_counters fails.items }) }
    {
        Ok(MemSink {
            taken: Vec::with_capacity(alloc, room as usize)?,
            room,
            counters: FailingCalls::new(fails),
        })
    }

    /// The bytes taken so far.
    pub fn bytes(&self) -> &[u8]
        ensures { result.now ≡ self.now.bytes }
    {
        self.taken.as_slice()
    }
}

impl Sink for MemSink {
    ghost state = { state_of };

    fn write(&mut self, bytes: &[u8]) -> Result<usize, Failed>
        requires { 0 < length bytes.now }
        ensures some { IfOk result (λ n. 1 ≤ n) }
        ensures within { IfOk result (λ n. n ≤ length bytes.now) }
        ensures taken { IfOk result (λ n. Takes (state_of self.old) (state_of self.new) (take n bytes.now)) }
        ensures failed { OnErr result (Some self.new.bytes ≡ Some self.old.bytes) }
        ensures cause { HasCause result self.old.counters.faults self.new.counters.faults }
        ensures counts { self.old.counters.faults ≤ self.new.counters.faults }
        ensures answer { result ≡ write_answer self.old bytes.now }
        ensures after { self.new ≡ sink_after self.old bytes.now }
    {
        let fails = self.counters.begin();
        let left = self.room as usize - self.taken.len();
        if fails || left == 0 {
            self.counters.fault();
            return Err(Failed);
        }
        let n = bytes.len().min(left);
        self.taken.extend_from_slice(&bytes[..n]).unwrap();
        Ok(n)
    }
}
