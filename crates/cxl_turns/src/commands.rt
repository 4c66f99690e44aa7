//! A command, carried out and counted.

ghost use Rattle.std.specs.Prelude.{◌≡◌, ℕ, ◌+◌, ◌-◌, ◌^◌, ◌<◌, ◌≤◌, Ok, [], ◌∷◌, OnOk, OnErr};
ghost use Rattle.cxl_script.specs.Grammar.{IsRanged};
ghost use Rattle.cxl_machine.specs.Scripts.{Turn};
ghost use Rattle.cxl_session.specs.Standing.{Stands, ForEachMachine};
ghost use Rattle.cxl_turns.specs.Counts.{counted, AreWithin};
ghost use Rattle.cxl_turns.specs.Going.{HasGoneOn};

use crate::counts::{Counts, count};
use cxl_bus::Regs;
use cxl_enc::Memory;
use cxl_media::Roll;
use cxl_reply::Reply;
use cxl_script::Command;
use cxl_session::Session;
use std::alloc::Global;

/// Carries out a command, and counts what it is answered, with the counts of those before it. The reply is put in the place of
/// an earlier one, whatever that was. Registers and media hold what the last call on this session left in them. After `Memory`
/// they and the counts are as they were, and the reply may be any. (This project's rule.) Takes memory.
pub fn carry_out_counted<R: Regs, M: Roll>(
    alloc: Global,
    session: &mut Session,
    command: &Command,
    reply: &mut Reply,
    counts: &mut Counts,
    regs: &mut R,
    media: &mut M,
) -> Result<(), Memory>
    requires stands { Stands session.old (R.state regs.old) (M.state media.old) }
    requires ranged { IsRanged command.now }
    // One more can be counted.
    requires few { (n : ℕ) × (n < 2 ^ 32 - 1) × AreWithin counts.old n }
    // It is answered; the reply is counted, and stands in the place of the earlier one.
    ensures taken { OnOk result (ForEachMachine session.old (R.state regs.old) (M.state media.old) (λ m. (turn : Turn)
        × HasGoneOn m (Ok command.now ∷ []) (turn ∷ []) session.new (R.state regs.old) (R.state regs.new) (M.state media.new)
        × (counts.new ≡ counted counts.old turn.reply) × (reply.new ≡ turn.reply))) }
    // So one more can be counted as long as they are fewer than that.
    ensures within { OnOk result ((n : ℕ) → AreWithin counts.old n → AreWithin counts.new (n + 1)) }
    // Or it met want of memory.
    ensures left { OnErr result (ForEachMachine session.old (R.state regs.old) (M.state media.old) (λ m.
        HasGoneOn m [] [] session.new (R.state regs.old) (R.state regs.new) (M.state media.new))) }
    ensures uncounted { OnErr result (counts.new ≡ counts.old) }
    ensures bus { (R.state regs.old).faults ≤ (R.state regs.new).faults }
{
    session.act_into(alloc, command, reply, regs, media)?;
    count(counts, reply);
    Ok(())
}
