//! The top call of the program: the words of a command line, carried out.

ghost use Rattle.std.specs.Prelude.{◌≡◌, ℕ, ◌≤◌, ◌⊎◌, None, false, List};
ghost use Rattle.cxl_enc.specs.Faults.{Rose};
ghost use Rattle.cxl_io.specs.Sink.{Takes};
ghost use Rattle.cxl_shell.specs.Completeness.{IsReady, IsAnsweredWhole};
ghost use Rattle.cxl_shell.specs.Devices.{devices};
ghost use Rattle.cxl_commands.specs.Form.{Route, form_of, table_file, runs_session, reads_script};
ghost use Rattle.cxl_shell.specs.Headline.{BehavesAsFlatMemory};
ghost use Rattle.cxl_commands.specs.Outside.{outside};
ghost use Rattle.cxl_shell.specs.Run.{IsRun};
ghost use Rattle.cxl_commands.specs.Words.{bytes_of};
ghost use Rattle.cxl_commands.specs.commands.Route.{IsRouteLine};

use crate::commands::carry_out;
use crate::completeness::runs_are_complete;
use crate::headline::runs_are_flat;
use crate::runs::runs_of_files;
use cxl_bus::Regs;
use cxl_commands::{form_of, route_statuses};
use cxl_inputs::Status;
use cxl_io::{Fetch, Memory, Sink, Source};
use cxl_media::Roll;
use cxl_script::stated_granularities_are_codes;
use std::alloc::Global;

/// Carries out the words of the command line, without the program's name: over files, a script, registers and
/// device memory that are handed in. Text goes to the sink.
pub fn run<F: Fetch, S: Source, K: Sink, R: Regs, M: Roll>(
    alloc: Global,
    words: &[String],
    files: &mut F,
    script: &mut S,
    out: &mut K,
    regs: &mut R,
    media: &mut M,
) -> Status
    // How it comes to its end: by its words and files; with the devices not made ready; or with the commands of a
    // session carried out.
    ensures run { IsRun (form_of (bytes_of words.now))
        (outside (F.state files.old) (K.state out.old)) (outside (F.state files.new) (K.state out.new))
        (devices (S.state script.old) (R.state regs.old) (M.state media.old))
        (devices (S.state script.new) (R.state regs.new) (M.state media.new)) result }

    // Completeness: where the words ask for something, all files are known and have a reading, the script is known
    // and within its limit, and neither files nor script nor sink failed, it is answered whole; or memory ran out; or
    // the bus failed while it was made ready.
    ensures complete { IsReady (form_of (bytes_of words.now)) (F.state files.old) (S.state script.old)
        → ¬ (Rose (F.state files.old).faults (F.state files.new).faults)
        → ¬ (Rose (S.state script.old).faults (S.state script.new).faults)
        → ¬ (Rose (K.state out.old).faults (K.state out.new).faults)
        → (result ≡ Status.Memory)
        ⊎ ((result ≡ Status.BusFault) × Rose (R.state regs.old).faults (R.state regs.new).faults)
        ⊎ IsAnsweredWhole (form_of (bytes_of words.now))
        (outside (F.state files.old) (K.state out.old)) (outside (F.state files.new) (K.state out.new))
        (devices (S.state script.old) (R.state regs.old) (M.state media.old))
        (devices (S.state script.new) (R.state regs.new) (M.state media.new)) result }

    // The headline: each image that `check` accepts, and the one that each command of a script leaves, carries every
    // region's host bytes one to one onto its endpoints' spans; no device byte serves two regions, and device addresses
    // lead back; loads and stores are answered as by one flat byte memory for each region; a refused command changes
    // nothing; and so it is between any two register writes.
    ensures headline { BehavesAsFlatMemory (form_of (bytes_of words.now))
        (outside (F.state files.old) (K.state out.old)) (outside (F.state files.new) (K.state out.new))
        (devices (S.state script.old) (R.state regs.old) (M.state media.old))
        (devices (S.state script.new) (R.state regs.new) (M.state media.new)) result }

    // The headline, in its part on `route`: with status 0 exactly the line is written that names the
    // window, the position and the bridge of the address, by the first window of the file's table that can
    // be used and holds it.
    ensures route { (file : List ℕ) (h : ℕ) → form_of (bytes_of words.now) ≡ Route file h → result ≡ Status.Done
        → (text : List ℕ) × IsRouteLine ((F.state files.old).told file) h text
        × Takes (K.state out.old) (K.state out.new) text }

    // A form without a session leaves script, registers and device memory, and one that reads no script
    // leaves the script.
    ensures left { runs_session (form_of (bytes_of words.now)) ≡ false
        → (script.new ≡ script.old) × (regs.new ≡ regs.old) × (media.new ≡ media.old) }
    ensures unread { reads_script (form_of (bytes_of words.now)) ≡ false → script.new ≡ script.old }

    // The counts never fall, the files are told as before, and a command that names none leaves them.
    ensures files { (F.state files.old).faults ≤ (F.state files.new).faults }
    ensures source { (S.state script.old).faults ≤ (S.state script.new).faults }
    ensures sink { (K.state out.old).faults ≤ (K.state out.new).faults }
    ensures bus { (R.state regs.old).faults ≤ (R.state regs.new).faults }
    ensures told { (F.state files.new).told ≡ (F.state files.old).told }
    ensures idle { table_file (form_of (bytes_of words.now)) ≡ None → files.new ≡ files.old }
{
    runs_are_complete();
    runs_are_flat();
    runs_of_files();
    route_statuses();
    stated_granularities_are_codes();
    match form_of(alloc, words) {
        Ok(form) => carry_out(alloc, form, files, script, out, regs, media),
        Err(Memory) => Status::Memory,
    }
}
