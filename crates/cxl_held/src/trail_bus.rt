//! The simulator's bus with the words that it was sent.

ghost use Rattle.std.specs.Prelude.{◌≡◌, ◌+◌, ◌<◌, ◌≤◌, min, false, [], ◌∷◌, length, Some, IfOk, OnOk, OnErr, is_err};
ghost use Rattle.cxl_bus.specs.Failed.{place_limit, HasFailedAt};
ghost use Rattle.cxl_enc.specs.Counters.{next_count};
ghost use Rattle.cxl_regs.specs.Blocks.{IsPlace, HasPlacesOf, word_in};
ghost use Rattle.cxl_held.specs.Trails.{room, untrailed, emptied, is_full, after_write, trailed_state};

use cxl_bus::{Regs, Sent, SimBus};
use cxl_enc::{Failed, Memory};
use cxl_regs::Block;
use std::alloc::Global;
use std::marker::Model;

/// How many words the trail has room for.
pub const ROOM: usize = 65_536;

/// How many writes that found the trail full are counted by place.
const PLACES: usize = 65_536;

/// The simulator's bus, which tells the words that it was sent since its trail was last emptied. It fails at a write
/// behind 65,536 of them, and nowhere else; of the first 65,536 calls that failed it tells that it was there.
#[derive(Drop)]
pub struct TrailBus {
    bus: SimBus,
    trail: Vec<Sent>,
    overruns: usize,
    faults: u64,
}

impl Model for TrailBus {
    ghost use Rattle.std.specs.Prelude.{◌<◌, ◌≤◌, length};
    ghost use Rattle.std.specs.Vec.{vec_capacity};
    ghost use Rattle.cxl_held.specs.Trails.{Trailed};

    ghost Value = { Trailed };

    ghost view = { λ b. record { blocks = b.bus; trail = b.trail.items; overruns = b.overruns; faults = b.faults } };

    // Where there are blocks to read and write, the trail has all its room; neither it nor the count goes past that; and only a
    // full one is overrun.
    ghost invariant = { λ b. (0 < length b.bus → 65536 ≤ vec_capacity b.trail)
        × (length b.trail.items ≤ 65536) × (b.overruns ≤ 65536) × (0 < b.overruns → 65536 ≤ length b.trail.items) };
}

impl TrailBus {
    /// A bus with no block. Takes no memory.
    pub fn new(alloc: Global) -> TrailBus
        ensures { result ≡ record { blocks = []; trail = []; overruns = 0; faults = 0 } }
    {
        TrailBus {
            bus: SimBus::new(alloc),
            trail: Vec::new(alloc),
            overruns: 0,
            faults: 0,
        }
    }

    /// A bus over these blocks, with an empty trail. Takes memory for that.
    pub(crate) fn over(alloc: Global, bus: SimBus) -> Result<TrailBus, Memory>
        ensures { IfOk result (λ made. made ≡ untrailed bus) }
    {
        let trail = Vec::with_capacity(alloc, ROOM)?;
        Ok(TrailBus {
            bus,
            trail,
            overruns: 0,
            faults: 0,
        })
    }

    /// Its blocks, without its trail.
    pub(crate) fn into_bus(self) -> SimBus
        ensures { result ≡ self.blocks }
    {
        let TrailBus { bus, .. } = self;
        bus
    }

    /// The words that it was sent since its trail was last emptied, in order.
    pub fn trail(&self) -> &[Sent]
        ensures words { result.now ≡ self.now.trail }
        // Where there is room for more, no call failed since then.
        ensures unfailed { length result.now < room → self.now.overruns ≡ 0 }
    {
        &self.trail
    }

    /// Empties the trail, whose room it keeps.
    pub(crate) fn empty_trail(&mut self)
        ensures { self.new ≡ emptied self.old }
    {
        self.trail.clear();
        self.overruns = 0;
    }

    /// Counts a fault, and that it was behind all the words that there is room for.
    fn overrun(&mut self)
        requires { room ≤ length self.old.trail }
        ensures { self.new ≡ record self.old { overruns = min (self.old.overruns + 1) place_limit; faults = next_count self.old.faults } }
    {
        self.faults = self.faults.saturating_add(1);
        self.overruns = (self.overruns + 1).min(PLACES);
    }
}

impl Regs for TrailBus {
    ghost use Rattle.cxl_held.specs.Trails.{trailed_state};

    ghost state = { trailed_state };

    fn power_on(&mut self, alloc: Global, start: &[Block]) -> Result<(), Memory>
        ensures ok { OnOk result (self.new ≡ record (emptied self.old) { blocks = start.now }) }
        ensures as_before { OnErr result (self.new ≡ self.old) }
    {
        let trail = Vec::with_capacity(alloc, ROOM)?;
        self.bus.power_on(alloc, start)?;
        self.trail = trail;
        self.overruns = 0;
        Ok(())
    }

    fn read32(&mut self, node: u32, off: u32) -> Result<u32, Failed>
        requires { IsPlace self.old.blocks node off }
        ensures word { IfOk result (λ word. word_in self.old.blocks node off ≡ Some word) }
        ensures never_fails { is_err result ≡ false }
        ensures same { self.new ≡ self.old }
    {
        self.bus.read32(node, off)
    }

    fn write32(&mut self, node: u32, off: u32, value: u32) -> Result<(), Failed>
        requires { IsPlace self.old.blocks node off }
        // It fails where its trail is full, and nowhere else. The trail has each write that was answered, in order.
        ensures fails { is_err result ≡ is_full self.old }
        ensures after { self.new ≡ after_write self.old node off value }
        ensures same_places { HasPlacesOf self.old.blocks self.new.blocks }
        ensures counts { self.old.faults ≤ self.new.faults }
        // A call that failed failed behind all the words that were sent, which are as many as there is room for.
        ensures failed { OnErr result (HasFailedAt (trailed_state self.old) (trailed_state self.new) (0 ∷ [])) }
    {
        if self.trail.len() >= ROOM {
            self.overrun();
            return Err(Failed);
        }
        self.bus.write32(node, off, value)?;
        self.trail.push_reserved(Sent { node, off, value });
        Ok(())
    }
}
