//! The bytes of a file, or the text that says why there are none.

ghost use Rattle.std.specs.Prelude.{◌≡◌, ◌≤◌, ⊤, [], ◌∷◌, length, IfOk, IfErr, OnOk};
ghost use Rattle.cxl_enc.specs.Limits.{file_limit};
ghost use Rattle.cxl_io.specs.Fetch.{AsksFor, IsFile};
ghost use Rattle.cxl_inputs.specs.File.{HasNoBytes, HasNotFailed, RunsOutBehind, unread, too_large};
ghost use Rattle.cxl_inputs.specs.Given.{AreTooMany};
ghost use Rattle.cxl_inputs.specs.Stop.{IsStop};

use crate::faults::error_line;
use crate::outcome::Outcome;
use crate::status::Status;
use crate::stop::Stop;
use cxl_enc::FILE_LIMIT;
use cxl_io::{Fetch, FetchFault, Memory};
use std::alloc::Global;

/// The bytes of a command's first file. It stops where there are none.
pub(crate) fn fetch_file<F: Fetch>(
    alloc: Global,
    file: &str,
    files: &mut F,
) -> Result<Vec<u8>, Stop>
    ensures file { IfOk result (λ bytes. IsFile ((F.state files.old).told file.now) bytes.items) }
    ensures asked { OnOk result (AsksFor (F.state files.old) (F.state files.new) (file.now ∷ [])) }
    ensures unfailed { OnOk result (HasNotFailed (F.state files.old) (F.state files.new)) }
    ensures stops { IfErr result (IsStop (HasNoBytes [] file.now (F.state files.old) (F.state files.new))
        (RunsOutBehind (file.now ∷ []) (F.state files.old) (F.state files.new))) }
    ensures counts { (F.state files.old).faults ≤ (F.state files.new).faults }
    ensures stays { (F.state files.new).told ≡ (F.state files.old).told }
{
    // Both texts are made before the file is asked for, so that what is told of it wants no memory.
    let unread = unread(alloc, file)?;
    let too_large = too_large(alloc, file)?;
    match files.fetch(alloc, file) {
        Ok(bytes) => Ok(bytes),
        Err(FetchFault::Failed) => Err(Stop::Outcome(unread)),
        Err(FetchFault::TooLarge) => Err(Stop::Outcome(too_large)),
        Err(FetchFault::Memory) => Err(Stop::Memory),
    }
}

/// Stops where the bytes of a file of this name are too many.
pub(crate) fn within_limit(alloc: Global, file: &str, bytes: &[u8]) -> Result<(), Stop>
    ensures within { OnOk result (length bytes.now ≤ file_limit) }
    ensures stops { IfErr result (IsStop (AreTooMany file.now bytes.now) ⊤) }
{
    if bytes.len() > FILE_LIMIT {
        return Err(Stop::of(too_large(alloc, file)));
    }
    Ok(())
}

/// The file of this name was not read.
fn unread(alloc: Global, file: &str) -> Result<Outcome, Memory>
    ensures { IfOk result (λ outcome. outcome ≡ unread file.now) }
{
    let text = error_line(alloc, "cannot read", file)?;
    Ok(Outcome::made(Status::FetchFault, text))
}

/// The file of this name has too many bytes.
fn too_large(alloc: Global, file: &str) -> Result<Outcome, Memory>
    ensures { IfOk result (λ outcome. outcome ≡ too_large file.now) }
{
    let text = error_line(alloc, file, "too large")?;
    Ok(Outcome::made(Status::TooLarge, text))
}
