//! Registers of your own: here they stand in memory, and each access is counted.

ghost use Rattle.std.specs.Prelude.{◌≡◌, true, [], None, Some, IfOk, IsOk};
ghost use Rattle.cxl_regs.specs.Blocks.{IsPlace, HasPlacesOf, word_in, blocks_after};

use cxl_bus::Regs;
use cxl_enc::{Failed, Memory};
use cxl_regs::{Block, copies};
use std::alloc::Global;
use std::marker::Model;

/// A board, which keeps its registers as the write rules leave them and never fails. Contracts see it as its blocks;
/// how often it was read and written is told to nobody but `main`.
#[derive(Drop)]
pub struct Board {
    blocks: Vec<Block>,
    pub reads: u64,
    pub writes: u64,
}

impl Model for Board {
    ghost use Rattle.std.specs.Prelude.{List};
    ghost use Rattle.cxl_regs.specs.Registers.{Registers};

    ghost Value = { List Registers };

    ghost view = { λ board. board.blocks.items };
}

impl Board {
    /// A board with no block. Takes no memory.
    pub fn new(alloc: Global) -> Board
        ensures { result ≡ [] }
    {
        Board {
            blocks: Vec::new(alloc),
            reads: 0,
            writes: 0,
        }
    }
}

impl Regs for Board {
    // What `run` knows of it: it holds these blocks and tells no trail. None of its calls failed, and it counts no fault.
    ghost state = { λ board. record {
      blocks = board;
      trail = None;
      failed_at = Some [];
      faults = 0;
      counts_failures_alone = true;
    } };

    fn power_on(&mut self, alloc: Global, start: &[Block]) -> Result<(), Memory> {
        self.blocks = copies(alloc, start)?;
        Ok(())
    }

    fn read32(&mut self, node: u32, off: u32) -> Result<u32, Failed>
        requires { IsPlace self.old node off }
        ensures never_fails { IsOk result }
        ensures word { IfOk result (λ word. word_in self.old node off ≡ Some word) }
        ensures same { self.new ≡ self.old }
    {
        self.reads = self.reads.saturating_add(1);
        Ok(self.blocks[node as usize].read32(off).unwrap())
    }

    fn write32(&mut self, node: u32, off: u32, value: u32) -> Result<(), Failed>
        requires { IsPlace self.old node off }
        ensures never_fails { IsOk result }
        ensures written { self.new ≡ blocks_after self.old node off value }
        ensures same_places { HasPlacesOf self.old self.new }
    {
        self.writes = self.writes.saturating_add(1);
        self.blocks[node as usize].write32(off, value);
        Ok(())
    }
}
