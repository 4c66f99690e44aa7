//! The command `route`.

ghost use Rattle.std.specs.Prelude.{◌≡◌, ℕ, ◌≤◌, ◌⊎◌, None, Ok, List, IfOk, IfSome};
ghost use Rattle.cxl_table.specs.CedtFields.{CedtFields};
ghost use Rattle.cxl_inputs.specs.Ends.{IsWritten};
ghost use Rattle.cxl_inputs.specs.Outcome.{Outcome};
ghost use Rattle.cxl_inputs.specs.Table.{IsReading, IsTableOf};
ghost use Rattle.cxl_io.specs.Sink.{Takes};
ghost use Rattle.cxl_io.specs.Told.{Bytes};
ghost use Rattle.cxl_commands.specs.Answers.{ComesTo};
ghost use Rattle.cxl_commands.specs.Stopped.{IsStopped};
ghost use Rattle.cxl_commands.specs.Form.{Route};
ghost use Rattle.cxl_commands.specs.RunByFiles.{EachRunByFiles};
ghost use Rattle.cxl_commands.specs.commands.Route.{IsNowhere, IsRouted, IsRouteLine, routed, no_window};
ghost use Rattle.cxl_window.specs.Windows.{windows_of};

use crate::commands::selection::{Selection, select};
use cxl_cedt::{TableText, one_reading};
use cxl_inputs::{Outcome, Status, Stop, fetch_table, text_windows};
use cxl_io::{Fetch, Memory};
use std::alloc::Global;

/// Where a host address goes, by the table in a file.
pub(crate) fn route<F: Fetch>(
    alloc: Global,
    file: &str,
    h: u64,
    files: &mut F,
) -> Result<Outcome, Stop>
    ensures comes { ComesTo (Route file.now h) (F.state files.old) (F.state files.new) result }
    ensures counts { (F.state files.old).faults ≤ (F.state files.new).faults }
    ensures stays { (F.state files.new).told ≡ (F.state files.old).told }
{
    let table = fetch_table(alloc, file, files)?;
    Ok(routed(alloc, &table, h)?)
}

/// Where a host address goes, by a table. Its windows are judged without a topology.
fn routed(alloc: Global, table: &TableText, h: u64) -> Result<Outcome, Memory>
    ensures { IfOk result (IsRouted table.now h) }
{
    let windows = text_windows(alloc, table, None)?;
    answer(alloc, select(&windows, h))
}

/// What an address's selection comes to. That there is none takes no memory to say.
fn answer(alloc: Global, selection: Option<Selection>) -> Result<Outcome, Memory>
    ensures some { IfSome selection (λ s. IfOk result (λ outcome. outcome ≡ routed s)) }
    ensures none { selection ≡ None → result ≡ Ok no_window }
{
    match selection {
        Some(selection) => named(alloc, selection),
        None => Ok(no_window()),
    }
}

/// The window, the position and the bridge of an address.
fn named(alloc: Global, selection: Selection) -> Result<Outcome, Memory>
    ensures { IfOk result (λ outcome. outcome ≡ routed selection) }
{
    let Selection {
        window,
        position,
        bridge,
    } = selection;
    let text = format!(in alloc; "window {window} position {position} bridge {bridge}\n")?;
    Ok(Outcome::made(Status::Done, text.into_bytes()))
}

/// An address goes nowhere.
fn no_window() -> Outcome
    ensures { result ≡ no_window }
{
    Outcome::fixed(Status::Refused, "no window\n")
}

/// Laws of each run of `route`.
pub fn route_statuses()
    // With status 0 it writes exactly the line that names the window, the position and the bridge of the
    // address, by the first window of the file's table that can be used and holds it.
    ensures route { EachRunByFiles (λ form old new status. (file : List ℕ) (h : ℕ) → form ≡ Route file h
        → status ≡ Status.Done
        → (text : List ℕ) × IsRouteLine (old.files.told file) h text × Takes old.out new.out text) }

    // Status 8 comes exactly where no window of the table that can be used holds the address, unless the run
    // stops before.
    ensures refused { EachRunByFiles (λ form old new status. (file : List ℕ) (h : ℕ) → form ≡ Route file h
        → status ≡ Status.Refused
        → (table : CedtFields) × IsTableOf (old.files.told file) table
        × IsNowhere (windows_of table.records None) h) }
    ensures only_refused { EachRunByFiles (λ form old new status. (file bytes : List ℕ) (h : ℕ) (table : CedtFields)
        → form ≡ Route file h → old.files.told file ≡ Bytes bytes → IsReading bytes table
        → IsNowhere (windows_of table.records None) h
        → (status ≡ Status.Refused) ⊎ IsStopped status old new) }

    // Where the file has a table, the address's outcome by it is written, unless the run stops before.
    ensures routed { EachRunByFiles (λ form old new status.
        (file bytes : List ℕ) (h : ℕ) (table : CedtFields) (outcome : Outcome)
        → form ≡ Route file h → old.files.told file ≡ Bytes bytes → IsReading bytes table
        → IsRouted table h outcome
        → IsWritten outcome status old.out new.out ⊎ IsStopped status old new) }
{
    one_reading();
}
