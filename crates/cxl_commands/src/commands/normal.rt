//! The command `normal`.

ghost use Rattle.std.specs.Prelude.{◌≡◌, ℕ, ◌≤◌, ◌⊎◌, List};
ghost use Rattle.cxl_table.specs.CedtFields.{CedtFields};
ghost use Rattle.cxl_inputs.specs.Ends.{IsWritten};
ghost use Rattle.cxl_inputs.specs.Table.{IsReading};
ghost use Rattle.cxl_io.specs.Sink.{Takes};
ghost use Rattle.cxl_io.specs.Told.{Bytes};
ghost use Rattle.cxl_commands.specs.Answers.{ComesTo};
ghost use Rattle.cxl_commands.specs.Stopped.{IsStopped};
ghost use Rattle.cxl_commands.specs.Form.{Normal};
ghost use Rattle.cxl_commands.specs.RunByFiles.{EachRunByFiles};
ghost use Rattle.cxl_commands.specs.commands.Normal.{normalized, IsNormalText};

use cxl_cedt::one_reading;
use cxl_inputs::{Outcome, Status, Stop, fetch_table};
use cxl_io::Fetch;
use std::alloc::Global;

/// The bytes of the table in a file, as the writer gives them.
pub(crate) fn normal<F: Fetch>(alloc: Global, file: &str, files: &mut F) -> Result<Outcome, Stop>
    ensures comes { ComesTo (Normal file.now) (F.state files.old) (F.state files.new) result }
    ensures counts { (F.state files.old).faults ≤ (F.state files.new).faults }
    ensures stays { (F.state files.new).told ≡ (F.state files.old).told }
{
    let table = fetch_table(alloc, file, files)?;
    let text = table.into_normal(alloc)?;
    Ok(Outcome::made(Status::Done, text))
}

/// Laws of each run of `normal`.
pub fn normal_statuses()
    // With status 0 it writes exactly the bytes of the file's table as the writer gives them.
    ensures normal { EachRunByFiles (λ form old new status. (file : List ℕ) → form ≡ Normal file → status ≡ Status.Done
        → (bytes : List ℕ) × IsNormalText (old.files.told file) bytes × Takes old.out new.out bytes) }
    // Where the file has a table, its bytes are written, unless the run stops before.
    ensures normalized { EachRunByFiles (λ form old new status. (file bytes : List ℕ) (table : CedtFields)
        → form ≡ Normal file → old.files.told file ≡ Bytes bytes → IsReading bytes table
        → IsWritten (normalized table) status old.out new.out ⊎ IsStopped status old new) }
{
    one_reading();
}
