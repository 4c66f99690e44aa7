//! Laws of images, of machines and of commands one after the other, each the contract of a function that does nothing.

ghost use Rattle.std.specs.Prelude.{ℕ, ◌≤◌, List};
ghost use Rattle.cxl_enc.specs.Limits.{frame_limit};
ghost use Rattle.cxl_model.specs.declared.found.Found.{Found};
ghost use Rattle.cxl_model.specs.Accepted.{IsAccepted};
ghost use Rattle.cxl_model.specs.Listed.{AreRegionsByBase};
ghost use Rattle.cxl_model.specs.System.{System, IsSystem};
ghost use Rattle.cxl_legal.specs.Used.{HasBytePorts};
ghost use Rattle.cxl_walk.specs.Carrying.{CarriesRegions};
ghost use Rattle.cxl_machine.specs.Machine.{Machine, HasSameHost, present};
ghost use Rattle.cxl_machine.specs.Reports.{live_regions};
ghost use Rattle.cxl_machine.specs.Scripts.{Asked, Turn, lines_asked};
ghost use Rattle.cxl_machine.specs.Sound.{IsMachine, Opens};
ghost use Rattle.cxl_machine.specs.Turns.{EachTurn, AreTurns, machine_after};
ghost use Rattle.cxl_flat.specs.Flat.{IsFlat, AreRanged, IsFlatTurn};

use crate::memory::{accesses_are_of_one_memory, reads_keep_bytes};
use cxl_machine::{
    commands_keep_machines, live_regions_stay, openings_are_machines, pending_regions_are_unmapped,
    refusals_leave_the_machine, refusals_write_nothing, words_pass_by_machines,
};
use cxl_model::bytes_are_carried_one_to_one;
use cxl_script::asked_commands_are_ranged;
use cxl_walk::images_carry_their_regions;

/// A law of accepted images: one carries the host bytes of its regions one to one onto the bytes of their spans, and no
/// device byte serves two of them.
pub fn accepted_images_carry_their_regions()
    ensures { (s : System) (regions : List Found) → IsSystem s → IsAccepted s → AreRegionsByBase s regions
        → CarriesRegions s regions }
{
    images_carry_their_regions();
}

/// A law of machines: what the registers of one that a session can stand for hold, also in the middle of a job, carries the
/// host bytes of its live regions.
pub fn machines_carry_their_regions()
    ensures { (m : Machine) → IsMachine m → CarriesRegions (present m) (live_regions m) }
{
    live_regions_stay();
    images_carry_their_regions();
}

/// A law of machines: besides, the region of a pending job is none of the live ones, and shares no byte with any.
pub fn machines_are_flat()
    ensures { (m : Machine) → IsMachine m → IsFlat m }
{
    machines_carry_their_regions();
    live_regions_stay();
    pending_regions_are_unmapped();
    bytes_are_carried_one_to_one();
}

/// A law of machines: the one as which an accepted host opens is one that a session can stand for, and carries the host
/// bytes of its regions.
pub fn openings_carry_their_regions()
    ensures { (start : System) (frames : ℕ) (m : Machine) → IsSystem start → HasBytePorts start.nodes
        → 1 ≤ frames → frames ≤ frame_limit → Opens start frames m
        → IsMachine m × CarriesRegions (present m) (live_regions m) }
{
    openings_are_machines();
    machines_carry_their_regions();
}

/// A law of lines: what they ask for is ranged.
pub fn lines_ask_for_ranged_commands()
    ensures { (lines : List (List ℕ)) → AreRanged (lines_asked lines) }
{
    asked_commands_are_ranged();
}

/// A law of scripts: of commands that lines can ask for, one after the other, each behaves as on flat memory, whatever was
/// asked before it and however the bus let it go. The last machine is one that a session can stand for, over the host of the first.
pub fn turns_are_flat()
    ensures each { (m : Machine) (asked : List Asked) (turns : List Turn) → IsMachine m → AreRanged asked
        → AreTurns m asked turns → EachTurn IsFlatTurn m asked turns }
    ensures machine { (m : Machine) (asked : List Asked) (turns : List Turn) → IsMachine m → AreRanged asked
        → AreTurns m asked turns → IsMachine (machine_after m turns) }
    ensures host { (m : Machine) (asked : List Asked) (turns : List Turn) → IsMachine m → AreRanged asked
        → AreTurns m asked turns → HasSameHost m (machine_after m turns) }
{
    machines_are_flat();
    accesses_are_of_one_memory();
    reads_keep_bytes();
    words_pass_by_machines();
    commands_keep_machines();
    refusals_leave_the_machine();
    refusals_write_nothing();
}
