//! The law that a run which has all that it asks for is answered whole.

ghost use Rattle.std.specs.Prelude.{◌≡◌, ◌⊎◌};
ghost use Rattle.cxl_enc.specs.Faults.{Rose};
ghost use Rattle.cxl_shell.specs.Completeness.{IsReady, IsAnsweredWhole};
ghost use Rattle.cxl_shell.specs.Run.{EachRun};

use cxl_cedt::one_reading;
use cxl_image::one_image_reading;
use cxl_inputs::Status;
use cxl_topofile::one_topology_reading;

/// A law of each run: where the words ask for something, all files are known and have a reading, the script is known and
/// within its limit, and neither files nor script nor sink failed, it is answered whole; or memory ran out; or the bus
/// failed while it was made ready.
pub fn runs_are_complete()
    ensures { EachRun (λ form old new before after status. IsReady form old.files before.script
        → ¬ (Rose old.files.faults new.files.faults) → ¬ (Rose before.script.faults after.script.faults)
        → ¬ (Rose old.out.faults new.out.faults)
        → (status ≡ Status.Memory) ⊎ ((status ≡ Status.BusFault) × Rose before.regs.faults after.regs.faults)
        ⊎ IsAnsweredWhole form old new before after status) }
{
    one_reading();
    one_topology_reading();
    one_image_reading();
}
