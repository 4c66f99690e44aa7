//! The simulator's bus, over blocks in memory.

ghost use Rattle.std.specs.Prelude.{◌≡◌, true, [], None, Some, IfOk, IsOk};
ghost use Rattle.cxl_regs.specs.Blocks.{IsPlace, HasPlacesOf, word_in, blocks_after};

use crate::regs::Regs;
use cxl_enc::{Failed, Memory};
use cxl_regs::{Block, copies};
use std::alloc::Global;
use std::marker::Model;

/// The simulator's bus: it never fails, and it tells no trail. Contracts see it as its blocks.
#[derive(Drop)]
pub struct SimBus {
    blocks: Vec<Block>,
}

impl Model for SimBus {
    ghost use Rattle.std.specs.Prelude.{List};
    ghost use Rattle.cxl_regs.specs.Registers.{Registers};

    ghost Value = { List Registers };

    ghost view = { λ bus. bus.blocks.items };
}

impl SimBus {
    /// A bus with no block. Takes no memory.
    pub fn new(alloc: Global) -> SimBus
        ensures { result ≡ [] }
    {
        SimBus {
            blocks: Vec::new(alloc),
        }
    }
}

impl Regs for SimBus {
    ghost state = { λ bus. record {
      blocks = bus;
      trail = None;
      failed_at = Some [];
      faults = 0;
      counts_failures_alone = true;
    } };

    fn power_on(&mut self, alloc: Global, start: &[Block]) -> Result<(), Memory> {
        self.blocks = copies(alloc, start)?;
        Ok(())
    }

    fn read32(&mut self, node: u32, off: u32) -> Result<u32, Failed>
        requires { IsPlace self.old node off }
        // It never fails, and a read changes nothing.
        ensures never_fails { IsOk result }
        ensures word { IfOk result (λ word. word_in self.old node off ≡ Some word) }
        ensures same { self.new ≡ self.old }
    {
        Ok(word_at_place(&self.blocks, node, off))
    }

    fn write32(&mut self, node: u32, off: u32, value: u32) -> Result<(), Failed>
        requires { IsPlace self.old node off }
        // It never fails.
        ensures never_fails { IsOk result }
        ensures written { self.new ≡ blocks_after self.old node off value }
        ensures same_places { HasPlacesOf self.old self.new }
    {
        self.blocks[node as usize].write32(off, value);
        Ok(())
    }
}

fn word_at_place(blocks: &[Block], node: u32, off: u32) -> u32
    requires { IsPlace blocks.now node off }
    ensures { word_in blocks.now node off ≡ Some result }
{
    blocks[node as usize].read32(off).unwrap()
}
