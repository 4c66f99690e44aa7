//! Laws of the statuses of `run` and `gen`.

ghost use Rattle.std.specs.Prelude.{◌≡◌, ℕ, ◌<◌, ◌⊎◌, Some, true, List, [], length};
ghost use Rattle.cxl_table.specs.CedtFields.{CedtFields};
ghost use Rattle.cxl_enc.specs.Faults.{Rose};
ghost use Rattle.cxl_inputs.specs.Ends.{IsWritten, IsCutShort};
ghost use Rattle.cxl_inputs.specs.Host.{host_of};
ghost use Rattle.cxl_inputs.specs.Outcome.{Outcome};
ghost use Rattle.cxl_io.specs.Reader.{script_limit};
ghost use Rattle.cxl_io.specs.Sink.{Takes};
ghost use Rattle.cxl_model.specs.System.{System};
ghost use Rattle.cxl_regs.specs.Registers.{Registers};
ghost use Rattle.cxl_opening.specs.Opening.{IsHalfEnabled, empty_media};
ghost use Rattle.cxl_topo.specs.Tree.{Tree};
ghost use Rattle.cxl_shell.specs.Completeness.{HasReadOut, HasMadeAll};
ghost use Rattle.cxl_commands.specs.Stopped.{IsStopped};
ghost use Rattle.cxl_commands.specs.Form.{Gen, Script, reads_script};
ghost use Rattle.cxl_commands.specs.Readings.{AreKnown, ByHost};
ghost use Rattle.cxl_shell.specs.Run.{IsUnopened, EachRun};
ghost use Rattle.cxl_shell.specs.RunOut.{HasRunOut, HasMadeSome};
ghost use Rattle.cxl_commands.specs.commands.RefusedStart.{IsRefusedStart};
ghost use Rattle.cxl_shell.specs.commands.Script.{IsStart, status_of, ends_reading};
ghost use Rattle.cxl_turns.specs.declared.endings.Ending.{Ending};

use crate::runs::run_ends;
use cxl_cedt::one_reading;
use cxl_image::one_image_reading;
use cxl_inputs::Status;
use cxl_model::accepted_or_breach;
use cxl_topo::tree_laws;
use cxl_topofile::one_topology_reading;

/// Laws of each run of a script.
pub fn script_statuses()
    // With status 0, 5 or 11 a session opened, and all lines were carried out: those of the whole script, those that ended
    // before the source failed, or those that ended within the limit. Their replies are written, and then what the status tells.
    ensures read_out { EachRun (λ form old new before after status. (end : Ending) → reads_script form ≡ true
        → ends_reading end ≡ true → status ≡ status_of end → HasReadOut form end old new before after) }

    // Status 5, 6 and 7 come only with cause. With 7 the script is unread, media is empty, and the endpoints before the
    // fault decode.
    ensures read_fault { EachRun (λ form old new before after status. status ≡ Status.ReadFault
        → Rose before.script.faults after.script.faults) }
    ensures write_fault { EachRun (λ form old new before after status. status ≡ Status.WriteFault
        → Rose old.out.faults new.out.faults) }
    ensures bus_fault { EachRun (λ form old new before after status. status ≡ Status.BusFault
        → Rose before.regs.faults after.regs.faults × (after.script ≡ before.script)
        × ((s : System) × (frames : ℕ) × IsStart form old.files.told s frames
        × IsHalfEnabled s before.regs after.regs × (after.media ≡ empty_media frames))) }

    // With status 8 the image has a breach or more than 256 regions, which is told, and nothing was touched.
    ensures refused { EachRun (λ form old new before after status. reads_script form ≡ true → status ≡ Status.Refused
        → (s : System) × (frames : ℕ) × (outcome : Outcome) × IsStart form old.files.told s frames
        × IsRefusedStart s outcome × IsWritten outcome status old.out new.out × (after ≡ before)) }

    // Where the files are known and have a reading, it comes wherever the image is such, unless the run stops before.
    ensures only_refused { EachRun (λ form old new before after status. (cedt topo image : List ℕ)
        (table : CedtFields) (tree : Tree) (blocks : List Registers) (outcome : Outcome)
        → form ≡ Script cedt topo (Some image) → AreKnown form old.files.told (ByHost table tree blocks)
        → IsRefusedStart (host_of table tree blocks) outcome
        → (status ≡ Status.Refused) ⊎ IsStopped status old new) }

    // Status 11 comes exactly where a session opens and its script has more than 16,777,216 bytes, unless source, sink or
    // memory end the run before.
    ensures only_too_long { EachRun (λ form old new before after status. (bytes : List ℕ) → reads_script form ≡ true
        → before.script.left ≡ Some bytes → script_limit < length bytes
        → (status ≡ Status.TooMuch) ⊎ ((status ≡ Status.ReadFault) × Rose before.script.faults after.script.faults)
        ⊎ ((status ≡ Status.WriteFault) × Rose old.out.faults new.out.faults) ⊎ (status ≡ Status.Memory)
        ⊎ IsUnopened form old new before after status) }
    ensures too_long { EachRun (λ form old new before after status. (bytes : List ℕ) → status ≡ Status.TooMuch
        → before.script.left ≡ Some bytes → script_limit < length bytes) }

    // Where memory ran out behind the opening, registers and media are as before the line that met it, and all replies
    // before it are written.
    ensures memory { EachRun (λ form old new before after status. reads_script form ≡ true → status ≡ Status.Memory
        → IsUnopened form old new before after status ⊎ HasRunOut form old new before after) }
{
    run_ends();
    one_reading();
    one_topology_reading();
    one_image_reading();
    accepted_or_breach();
    tree_laws();
}

/// Laws of each run of a generated system.
pub fn gen_statuses()
    // The script is unread, whatever the status.
    ensures unread { EachRun (λ form old new before after status. (n : ℕ) → form ≡ Gen n → after.script ≡ before.script) }
    // With status 0, and with 6 behind the opening, all commands were carried out; the line is written, or a part of it
    // from the front.
    ensures done { EachRun (λ form old new before after status. (n : ℕ) → form ≡ Gen n → status ≡ Status.Done
        → HasMadeAll n (λ outcome. IsWritten outcome status old.out new.out) before after) }
    ensures cut { EachRun (λ form old new before after status. (n : ℕ) → form ≡ Gen n → status ≡ Status.WriteFault
        → HasMadeAll n (λ outcome. IsCutShort outcome status old.out new.out) before after
        ⊎ IsUnopened form old new before after status) }
    // Where memory ran out, nothing is written; and some first commands were carried out, or no session opened.
    ensures memory { EachRun (λ form old new before after status. (n : ℕ) → form ≡ Gen n → status ≡ Status.Memory
        → Takes old.out new.out [] × (IsUnopened form old new before after status ⊎ HasMadeSome n before after)) }
    // No other status comes but 7.
    ensures others { EachRun (λ form old new before after status. (n : ℕ) → form ≡ Gen n
        → (status ≡ Status.Done) ⊎ (status ≡ Status.WriteFault) ⊎ (status ≡ Status.Memory)
        ⊎ (status ≡ Status.BusFault)) }
{}
