//! The trait behind which registers are reached, a word at a time.

ghost use Rattle.std.specs.Prelude.{◌≡◌, ◌≤◌, [], ◌∷◌, Some, option_map, IfOk, OnOk, OnErr};
ghost use Rattle.cxl_enc.specs.Faults.{HasCause, LeavesCount, CountsExactly};
ghost use Rattle.cxl_regs.specs.Blocks.{IsPlace, word_in, blocks_after};
ghost use Rattle.cxl_bus.specs.Failed.{HasFailedAt};
ghost use Rattle.cxl_bus.specs.RegsState.{RegsState, IsUntouched};
ghost use Rattle.cxl_bus.specs.Trail.{trail_after};

use cxl_enc::{Failed, Memory};
use cxl_regs::Block;
use std::alloc::Global;

/// The registers of a system, a decoder block a node, reached one 32-bit word at a time. Each write of a
/// word is one event. A count of faults never falls, and one that has reached 2^64 - 1 stays there.
pub trait Regs {
    /// The blocks that it holds, by node; the writes that were answered `Ok` since it was powered on, and
    /// behind how many of these each call failed, where it tells them; and how many faults there were.
    ghost state: { Self → RegsState };

    /// Holds these blocks from now on, with an empty trail, and tells no earlier fault. Takes memory; after `Memory` all is
    /// as before.
    fn power_on(&mut self, alloc: Global, start: &[Block]) -> Result<(), Memory>
        ensures holds { OnOk result ((state self.new).blocks ≡ start.now) }
        ensures empties { OnOk result ((state self.new).trail ≡ option_map (λ _. []) (state self.old).trail) }
        ensures forgets { OnOk result ((state self.new).failed_at ≡ option_map (λ _. []) (state self.old).failed_at) }
        ensures err { OnErr result (state self.new ≡ state self.old) }
        ensures counts { (state self.old).faults ≤ (state self.new).faults }
        ensures alone { (state self.new).counts_failures_alone ≡ (state self.old).counts_failures_alone }
        // A fault is not swallowed.
        ensures unswallowed { OnOk result
            (LeavesCount (state self.old).counts_failures_alone (state self.old).faults (state self.new).faults) };

    /// The word at an offset of a node's block. Changes nothing.
    fn read32(&mut self, node: u32, off: u32) -> Result<u32, Failed>
        requires { IsPlace (state self.old).blocks node off }
        ensures word { IfOk result (λ word. word_in (state self.old).blocks node off ≡ Some word) }
        ensures same { IsUntouched (state self.old) (state self.new) }
        ensures cause { HasCause result (state self.old).faults (state self.new).faults }
        ensures counts { (state self.old).faults ≤ (state self.new).faults }
        ensures alone { (state self.new).counts_failures_alone ≡ (state self.old).counts_failures_alone }
        // A fault is not swallowed.
        ensures unswallowed { OnOk result
            (LeavesCount (state self.old).counts_failures_alone (state self.old).faults (state self.new).faults) }
        ensures unfailed { OnOk result ((state self.new).failed_at ≡ (state self.old).failed_at) }
        // A call that failed failed behind all words sent so far, and is counted once.
        ensures failed { OnErr result (HasFailedAt (state self.old) (state self.new) (0 ∷ [])) }
        ensures counted { OnErr result
            (CountsExactly 1 (state self.old).counts_failures_alone (state self.old).faults (state self.new).faults) };

    /// Writes a word of a node's block. `Ok` says that the write was sent, and the block's write rules may
    /// still have dropped it. `Failed` changes nothing.
    fn write32(&mut self, node: u32, off: u32, value: u32) -> Result<(), Failed>
        requires { IsPlace (state self.old).blocks node off }
        ensures written { OnOk result ((state self.new).blocks ≡ blocks_after (state self.old).blocks node off value) }
        ensures sent { OnOk result ((state self.new).trail ≡ trail_after (state self.old).trail node off value) }
        ensures err { OnErr result (IsUntouched (state self.old) (state self.new)) }
        ensures cause { HasCause result (state self.old).faults (state self.new).faults }
        ensures counts { (state self.old).faults ≤ (state self.new).faults }
        ensures alone { (state self.new).counts_failures_alone ≡ (state self.old).counts_failures_alone }
        // A fault is not swallowed.
        ensures unswallowed { OnOk result
            (LeavesCount (state self.old).counts_failures_alone (state self.old).faults (state self.new).faults) }
        ensures unfailed { OnOk result ((state self.new).failed_at ≡ (state self.old).failed_at) }
        // A call that failed failed behind all words sent so far, and is counted once.
        ensures failed { OnErr result (HasFailedAt (state self.old) (state self.new) (0 ∷ [])) }
        ensures counted { OnErr result
            (CountsExactly 1 (state self.old).counts_failures_alone (state self.old).faults (state self.new).faults) };
}
