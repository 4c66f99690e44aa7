//! Lines on their way to a sink, kept in a block until it is full.

ghost use Rattle.std.specs.Prelude.{◌≡◌, ◌≤◌, [], OnOk, OnErr};
ghost use Rattle.cxl_enc.specs.Faults.{HasCause, LeavesCount, CountsExactly};
ghost use Rattle.cxl_io.specs.Sink.{Takes, TakesPrefix};
ghost use Rattle.cxl_io.specs.Blocks.{KeepsOrWrites};

use crate::{Failed, Sink, write_all};
use std::alloc::Global;

/// Lines on their way to a sink. They are kept in a block, which is written once it has `FROM` bytes, and at the end:
/// from 0, each line is written at once.
#[derive(Drop)]
pub struct Lines<const FROM: usize> {
    /// Where the next line is put.
    pub block: Vec<u8>,
}

impl<const FROM: usize> Lines<FROM> {
    /// No lines yet. Takes no memory.
    pub fn new(alloc: Global) -> Lines<FROM>
        ensures { result.block.items ≡ [] }
    {
        Lines {
            block: Vec::new(alloc),
        }
    }

    /// The line in the block is whole: a block that is full is written and emptied. After a failure some bytes from its
    /// front, but not all, are taken. Takes no memory.
    pub fn line_done<K: Sink>(&mut self, out: &mut K) -> Result<(), Failed>
        ensures ok { OnOk result (KeepsOrWrites FROM (K.state out.old) (K.state out.new) self.old.block.items self.new.block.items) }
        ensures failed { OnErr result (TakesPrefix (K.state out.old) (K.state out.new) self.old.block.items) }
        ensures cause { HasCause result (K.state out.old).faults (K.state out.new).faults }
        ensures counts { (K.state out.old).faults ≤ (K.state out.new).faults }
        ensures alone { (K.state out.new).counts_failures_alone ≡ (K.state out.old).counts_failures_alone }
        ensures unswallowed { OnOk result (LeavesCount (K.state out.old).counts_failures_alone
            (K.state out.old).faults (K.state out.new).faults) }
        ensures counted { OnErr result (CountsExactly 1 (K.state out.old).counts_failures_alone
            (K.state out.old).faults (K.state out.new).faults) }
    {
        if self.block.len() < FROM {
            return Ok(());
        }
        write_all(out, self.block.as_slice())?;
        self.block.clear();
        Ok(())
    }

    /// Writes what is left in the block. After a failure some bytes from its front, but not all, are taken. Takes no memory.
    pub fn end<K: Sink>(self, out: &mut K) -> Result<(), Failed>
        ensures ok { OnOk result (Takes (K.state out.old) (K.state out.new) self.entry.block.items) }
        ensures failed { OnErr result (TakesPrefix (K.state out.old) (K.state out.new) self.entry.block.items) }
        ensures cause { HasCause result (K.state out.old).faults (K.state out.new).faults }
        ensures counts { (K.state out.old).faults ≤ (K.state out.new).faults }
        ensures alone { (K.state out.new).counts_failures_alone ≡ (K.state out.old).counts_failures_alone }
        ensures unswallowed { OnOk result (LeavesCount (K.state out.old).counts_failures_alone
            (K.state out.old).faults (K.state out.new).faults) }
        ensures counted { OnErr result (CountsExactly 1 (K.state out.old).counts_failures_alone
            (K.state out.old).faults (K.state out.new).faults) }
    {
        write_all(out, self.block.as_slice())
    }
}
