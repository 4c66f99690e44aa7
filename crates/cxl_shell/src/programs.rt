//! A program as a whole: the words of its command line, carried out over the objects that its `main` makes, and its exit status.

ghost use Rattle.std.specs.Prelude.{◌≡◌, IfOk, OnErr};
ghost use Rattle.std.specs.Process.{exit_status};
ghost use Rattle.cxl_commands.specs.Form.{form_of};
ghost use Rattle.cxl_commands.specs.Outside.{outside};
ghost use Rattle.cxl_commands.specs.Words.{bytes_of};
ghost use Rattle.cxl_inputs.specs.Exit.{exit_code};
ghost use Rattle.cxl_inputs.specs.declared.status.Status.{Status};
ghost use Rattle.cxl_shell.specs.Devices.{devices};
ghost use Rattle.cxl_shell.specs.Run.{IsRun};

use crate::shell::run;
use cxl_bus::Regs;
use cxl_inputs::{Beside, Status, ended};
use cxl_io::{Fetch, Memory, Sink, Source};
use cxl_media::Roll;
use std::alloc::Global;
use std::process::ExitCode;

/// Carries out the words of a command line, where there was memory for them, as `run` does, and ends with the exit status of that
/// run. A `main` is this call, over the objects that it makes.
pub fn program<F: Fetch, S: Source, K: Sink, R: Regs, M: Roll, B: Beside>(
    alloc: Global,
    words: Result<Vec<String>, Memory>,
    files: &mut F,
    script: &mut S,
    out: &mut K,
    regs: &mut R,
    media: &mut M,
    beside: &mut B,
) -> ExitCode
    // It ends as a run of its words does, and its exit status is that of the run.
    ensures ends { IfOk words (λ own. (status : Status) × IsRun (form_of (bytes_of own.items))
        (outside (F.state files.old) (K.state out.old)) (outside (F.state files.new) (K.state out.new))
        (devices (S.state script.old) (R.state regs.old) (M.state media.old))
        (devices (S.state script.new) (R.state regs.new) (M.state media.new)) status
        × (exit_status result ≡ exit_code status)) }
    // Where there was no memory for its words, nothing is touched.
    ensures unheard { OnErr words ((exit_status result ≡ exit_code Status.Memory) × (files.new ≡ files.old)
        × (script.new ≡ script.old) × (out.new ≡ out.old) × (regs.new ≡ regs.old) × (media.new ≡ media.old)) }
{
    let Ok(words) = words else {
        return ended(Status::Memory);
    };
    let status = run(alloc, words.as_slice(), files, script, out, regs, media);
    beside.tell(words.as_slice(), status);
    drop(words);
    ended(status)
}
