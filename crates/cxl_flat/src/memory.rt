//! Laws of the bytes of regions, each the contract of a function that does nothing.

ghost use Rattle.std.specs.Prelude.{◌≡◌, false, List};
ghost use Rattle.cxl_bus.specs.declared.sent.Sent.{Sent};
ghost use Rattle.cxl_script.specs.declared.command.Command.{Command};
ghost use Rattle.cxl_machine.specs.Machine.{Machine};
ghost use Rattle.cxl_machine.specs.Jobs.{at_done};
ghost use Rattle.cxl_machine.specs.Scripts.{Asked, Turn, TakesTurn};
ghost use Rattle.cxl_machine.specs.Sound.{IsMachine};
ghost use Rattle.cxl_machine.specs.Trails.{IsOnTheWay};
ghost use Rattle.cxl_flat.specs.Memory.{IsFlatAccess, writes_bytes, KeepsBytes};

use cxl_machine::{
    asked_creates_begin_as_machines, creates_are_legal, ended_jobs_leave_nothing,
    pending_regions_are_unmapped, releases_begin_as_machines,
};
use cxl_model::regions_share_no_byte;

/// A law of answers: the regions of a machine that a session can stand for are one flat memory. A load tells the bytes as they
/// stand at its addresses, a store changes those at its own and no others; and a copy or a move gives the second region the
/// bytes of the first, which is left as it was or zero.
pub fn accesses_are_of_one_memory()
    ensures { (m : Machine) (one : Asked) (turn : Turn) → IsMachine m → TakesTurn m one turn → IsFlatAccess m one turn }
{
    regions_share_no_byte();
}

/// A law of answers: what is asked for that is no store, copy or move leaves the bytes of each region, also while one is made
/// or ended, and between any two register writes; and a region that is there then and was not before is new, and holds zeros.
pub fn reads_keep_bytes()
    ensures behind { (m : Machine) (one : Asked) (turn : Turn) → IsMachine m → TakesTurn m one turn
        → writes_bytes one ≡ false → KeepsBytes m turn.machine }
    ensures between { (m : Machine) (command : Command) (words : List Sent) (way : IsOnTheWay m command words)
        → IsMachine m → KeepsBytes m (at_done way.job way.done way.at) }
{
    ended_jobs_leave_nothing();
    pending_regions_are_unmapped();
    creates_are_legal();
    asked_creates_begin_as_machines();
    releases_begin_as_machines();
}
