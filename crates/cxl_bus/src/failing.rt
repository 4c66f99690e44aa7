//! A bus that fails at stated calls, for tests and benches.

ghost use Rattle.std.specs.Prelude.{◌≡◌, ◌<◌, ◌≤◌, true, [], length, Some, IfOk, OnOk, OnErr, is_err};
ghost use Rattle.cxl_regs.specs.Blocks.{IsPlace, HasPlacesOf, word_in};
ghost use Rattle.cxl_enc.specs.Counters.{fresh_counters, fails_next};
ghost use Rattle.cxl_bus.specs.Failing.{is_write_failing, after_fault, after_read, after_write};

use crate::regs::Regs;
use crate::sent::Sent;
use crate::sim::SimBus;
use cxl_enc::{Failed, FailingCalls, Memory};
use cxl_regs::Block;
use std::alloc::Global;
use std::marker::Model;

/// How many writes the trail has room for, and how many faults are told by place.
const ROOM: usize = 65_536;

/// A bus whose reads and writes fail at the calls of a list, numbered from 1 together, and a write also
/// where 65,536 were answered `Ok` since it was powered on. Nothing else fails. It tells its trail, and where the first
/// 65,536 calls that failed since then did.
#[derive(Drop)]
pub struct FailingBus {
    bus: SimBus,
    counters: FailingCalls,
    trail: Vec<Sent>,
    failed_at: Vec<usize>,
}

impl Model for FailingBus {
    ghost use Rattle.std.specs.Prelude.{◌<◌, ◌≤◌, length};
    ghost use Rattle.std.specs.Vec.{vec_capacity};
    ghost use Rattle.cxl_bus.specs.Failing.{Failing};

    ghost Value = { Failing };

    ghost view = { λ b. record {
      blocks = b.bus;
      counters = b.counters;
      trail = b.trail.items;
      failed_at = b.failed_at.items;
    } };

    // Where there are blocks to read and write, trail and places have all their room.
    ghost invariant = { λ b. 0 < length b.bus
        → (65536 ≤ vec_capacity b.trail) × (65536 ≤ vec_capacity b.failed_at) };
}

impl FailingBus {
    /// A bus with no block, and the numbers of the calls that are to fail. Takes no memory.
    pub fn new(alloc: Global, fails: Vec<u64>) -> FailingBus
        ensures { result ≡ record { blocks = []; counters = fresh_counters fails.items; trail = []; failed_at = [] } }
    {
        FailingBus {
            bus: SimBus::new(alloc),
            counters: FailingCalls::new(fails),
            trail: Vec::new(alloc),
            failed_at: Vec::new(alloc),
        }
    }

    /// The writes that were answered `Ok` since it was powered on, in order.
    pub fn trail(&self) -> &[Sent]
        ensures { result.now ≡ self.now.trail }
    {
        &self.trail
    }

    /// How many of these were answered before each call that failed, in order: of the first 65,536 that did since it was
    /// powered on.
    pub fn failed_at(&self) -> &[usize]
        ensures { result.now ≡ self.now.failed_at }
    {
        &self.failed_at
    }

    /// Counts a fault, and tells its place where there is room.
    fn fail(&mut self)
        requires { 0 < length self.old.blocks }
        ensures after { self.new ≡ after_fault self.old }
        ensures counts { self.old.counters.faults ≤ self.new.counters.faults }
    {
        self.counters.fault();
        if self.failed_at.len() < ROOM {
            self.failed_at.push_reserved(self.trail.len());
        }
    }
}

impl Regs for FailingBus {
    ghost state = { λ bus. record {
      blocks = bus.blocks;
      trail = Some bus.trail;
      failed_at = Some bus.failed_at;
      faults = bus.counters.faults;
      counts_failures_alone = true;
    } };

    fn power_on(&mut self, alloc: Global, start: &[Block]) -> Result<(), Memory>
        // The calls and the faults are counted on.
        ensures ok { OnOk result (self.new ≡ record self.old { blocks = start.now; trail = []; failed_at = [] }) }
        ensures as_before { OnErr result (self.new ≡ self.old) }
    {
        let trail = Vec::with_capacity(alloc, ROOM)?;
        let failed_at = Vec::with_capacity(alloc, ROOM)?;
        self.bus.power_on(alloc, start)?;
        self.trail = trail;
        self.failed_at = failed_at;
        Ok(())
    }

    fn read32(&mut self, node: u32, off: u32) -> Result<u32, Failed>
        requires { IsPlace self.old.blocks node off }
        ensures word { IfOk result (λ word. word_in self.old.blocks node off ≡ Some word) }
        // It fails at the calls of its list, and nowhere else.
        ensures fails { is_err result ≡ fails_next self.old.counters }
        ensures after { self.new ≡ after_read self.old }
        ensures counts { self.old.counters.faults ≤ self.new.counters.faults }
    {
        if self.counters.begin() {
            self.fail();
            return Err(Failed);
        }
        self.bus.read32(node, off)
    }

    fn write32(&mut self, node: u32, off: u32, value: u32) -> Result<(), Failed>
        requires { IsPlace self.old.blocks node off }
        // It fails at the calls of its list and where its trail is full, and nowhere else. The trail has each write
        // that was answered, in order, dropped values included; and of the first 65,536 faults it tells behind how
        // many of these each came.
        ensures fails { is_err result ≡ is_write_failing self.old }
        ensures after { self.new ≡ after_write self.old node off value }
        ensures same_places { HasPlacesOf self.old.blocks self.new.blocks }
        ensures counts { self.old.counters.faults ≤ self.new.counters.faults }
    {
        if self.counters.begin() || self.trail.len() >= ROOM {
            self.fail();
            return Err(Failed);
        }
        self.bus.write32(node, off, value)?;
        self.trail.push_reserved(Sent { node, off, value });
        Ok(())
    }
}
