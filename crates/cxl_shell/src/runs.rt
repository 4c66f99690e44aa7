//! Laws of how each run ends, and of what it leaves alone.

ghost use Rattle.std.specs.Prelude.{◌≡◌, ◌≢◌, ℕ, ◌⊎◌, Some, false, true, List};
ghost use Rattle.cxl_enc.specs.Faults.{Rose};
ghost use Rattle.cxl_inputs.specs.Ends.{Ends, IsWritten};
ghost use Rattle.cxl_inputs.specs.Outcome.{Outcome};
ghost use Rattle.cxl_script.specs.declared.command.Create.{Create};
ghost use Rattle.cxl_commands.specs.Answers.{IsOutcomeOf, IsAnswerBy};
ghost use Rattle.cxl_commands.specs.Stopped.{IsStopped};
ghost use Rattle.cxl_commands.specs.Form.{Route, Check, Plan, Script, has_many_pieces, takes_memory, runs_session};
ghost use Rattle.cxl_commands.specs.Readings.{Readings, AreKnown};
ghost use Rattle.cxl_commands.specs.RunByFiles.{RunsOut, IsRunByFiles, EachRunByFiles};
ghost use Rattle.cxl_shell.specs.Run.{EachRun};
ghost use Rattle.cxl_shell.specs.Statuses.{is_of_files};

use cxl_cedt::one_reading;
use cxl_image::one_image_reading;
use cxl_inputs::Status;
use cxl_topofile::one_topology_reading;

/// Laws of each run: what it leaves alone.
pub fn runs_of_files()
    // A run of a form without a session, or that ends with status 1, 2, 3, 4, 8, 10 or 12, comes to its end by its
    // words and files, and leaves script, registers and device memory.
    ensures form { EachRun (λ form old new before after status. runs_session form ≡ false
        → IsRunByFiles form old new status × (after ≡ before)) }
    ensures status { EachRun (λ form old new before after status. is_of_files status ≡ true
        → IsRunByFiles form old new status × (after ≡ before)) }
{}

/// Laws of each run: how it ends.
pub fn run_ends()
    // Unless memory ran out, an outcome that answers the form is written, or the sink failed behind a part
    // of its text.
    ensures answer { EachRunByFiles (λ form old new status. (status ≡ Status.Memory)
        ⊎ ((outcome : Outcome) × IsOutcomeOf form old new outcome × Ends outcome status old.out new.out)) }
    // Where all files of the form are known and have a reading, an outcome by what they are read as is
    // written, unless the run stops before.
    ensures answered { EachRunByFiles (λ form old new status. (readings : Readings)
        → AreKnown form old.files.told readings
        → ((outcome : Outcome) × IsAnswerBy form readings outcome × IsWritten outcome status old.out new.out)
        ⊎ IsStopped status old new) }
    // Status 8 comes of `route`, `check`, `plan` and a script from an image alone.
    ensures refused { EachRun (λ form old new before after status. status ≡ Status.Refused
        → ((file : List ℕ) × (h : ℕ) × (form ≡ Route file h))
        ⊎ ((cedt : List ℕ) × (topo : List ℕ) × (image : List ℕ) × (form ≡ Check cedt topo image))
        ⊎ ((cedt : List ℕ) × (topo : List ℕ) × (create : Create) × (form ≡ Plan cedt topo create))
        ⊎ ((cedt : List ℕ) × (topo : List ℕ) × (image : List ℕ) × (form ≡ Script cedt topo (Some image)))) }
    // Status 6 comes only where the sink failed.
    ensures write_fault { EachRun (λ form old new before after status. status ≡ Status.WriteFault
        → Rose old.out.faults new.out.faults) }
    // Where memory ran out, nothing is written, or whole pieces of an outcome that answers, where the form
    // may have more than one. A form that takes no memory never ends so.
    ensures memory { EachRunByFiles (λ form old new status. status ≡ Status.Memory → RunsOut form old new) }
    ensures memory_writes { EachRunByFiles (λ form old new status. has_many_pieces form ≡ false
        → status ≡ Status.Memory → new.out.taken ≡ old.out.taken) }
    ensures no_memory { EachRun (λ form old new before after status. takes_memory form ≡ false → status ≢ Status.Memory) }
{
    one_reading();
    one_topology_reading();
    one_image_reading();
}
