//! A source in memory, which can be told to fail.

ghost use Rattle.std.specs.Prelude.{◌≡◌, ◌<◌, ◌≤◌, min, Some, [], length, take, IfOk, OnErr};
ghost use Rattle.cxl_enc.specs.Counters.{fresh_counters};
ghost use Rattle.cxl_enc.specs.Faults.{HasCause};
ghost use Rattle.cxl_io.specs.MemorySource.{state_of, read_answer, source_after};
ghost use Rattle.cxl_io.specs.Source.{GivesFront, IsAtEnd};

use crate::source::Source;
use cxl_enc::{Failed, FailingCalls};
use std::marker::Model;

/// A source in memory, which tells the bytes that it has left. It can also be told to fail at some of its
/// calls.
#[derive(Drop)]
pub struct MemSource {
    bytes: Vec<u8>,
    at: usize,
    counters: FailingCalls,
}

impl Model for MemSource {
    ghost use Rattle.std.specs.Prelude.{◌≤◌, vec_len, drop};
    ghost use Rattle.cxl_io.specs.MemorySource.{MemorySource};

    ghost Value = { MemorySource };

    ghost view = { λ s. record { left = drop s.at s.bytes.items; counters = s.counters } };

    ghost invariant = { λ s. s.at ≤ vec_len s.bytes };
}

impl MemSource {
    /// A source of these bytes, and the numbers of the reads that fail, counted from 1. Takes no memory.
    pub fn new(bytes: Vec<u8>, fails: Vec<u64>) -> MemSource
        ensures { result ≡ record { left = bytes.items; counters = fresh_counters fails.items } }
    {
        MemSource {
            bytes,
            at: 0,
            counters: FailingCalls::new(fails),
        }
    }
}

impl Source for MemSource {
    ghost state = { state_of };

    fn read(&mut self, into: &mut [u8]) -> Result<usize, Failed>
        requires { 0 < length into.old }
        ensures within { IfOk result (λ n. n ≤ length into.old) }
        ensures given { IfOk result (λ n. GivesFront (state_of self.old) (state_of self.new) (take n into.new)) }
        ensures end { IfOk result (λ n. n ≡ 0 → IsAtEnd (state_of self.old)) }
        ensures only_end { IfOk result (λ n. (state_of self.old).left ≡ Some [] → n ≡ 0) }
        ensures failed { OnErr result ((state_of self.new).left ≡ (state_of self.old).left) }
        ensures cause { HasCause result (state_of self.old).faults (state_of self.new).faults }
        ensures counts { (state_of self.old).faults ≤ (state_of self.new).faults }
        ensures answer { result ≡ read_answer self.old (length into.old) }
        ensures after { self.new ≡ source_after self.old (length into.old) }
    {
        if self.counters.begin() {
            self.counters.fault();
            return Err(Failed);
        }
        let n = copy_front(&self.bytes[self.at..], into);
        self.at += n;
        Ok(n)
    }
}

/// Copies as many bytes as fit, and answers how many.
fn copy_front(from: &[u8], into: &mut [u8]) -> usize
    ensures count { result ≡ min (length into.old) (length from.now) }
    ensures front { take result into.new ≡ take result from.now }
{
    let n = into.len().min(from.len());
    into[..n].copy_from_slice(&from[..n]);
    n
}
