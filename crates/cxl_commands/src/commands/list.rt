//! The command `list`.

ghost use Rattle.std.specs.Prelude.{◌≡◌, ℕ, ◌≤◌, ◌⊎◌, None, List, [], ◌∷◌, length, IfOk, IfErr, OnOk, OnErr};
ghost use Rattle.std.specs.List.{filter_map};
ghost use Rattle.cxl_table.specs.CedtFields.{CedtFields};
ghost use Rattle.cxl_cedt.specs.RecordTexts.{record_in};
ghost use Rattle.cxl_inputs.specs.Ends.{IsWritten, Ends};
ghost use Rattle.cxl_inputs.specs.File.{HasNotFailed, RunsOutBehind};
ghost use Rattle.cxl_inputs.specs.Stop.{IsStop};
ghost use Rattle.cxl_inputs.specs.Table.{IsReading, IsTableOf, HasNoTable};
ghost use Rattle.cxl_io.specs.Fetch.{AsksFor};
ghost use Rattle.cxl_io.specs.Sink.{Takes};
ghost use Rattle.cxl_io.specs.Told.{Bytes};
ghost use Rattle.cxl_commands.specs.Stopped.{IsBehind, IsStopped};
ghost use Rattle.cxl_commands.specs.Form.{Listing};
ghost use Rattle.cxl_commands.specs.Outside.{outside};
ghost use Rattle.cxl_commands.specs.RunByFiles.{IsRunByFiles, EachRunByFiles};
ghost use Rattle.cxl_commands.specs.commands.List.{listed, IsListText, TakesLines};
ghost use Rattle.cxl_window.specs.Windows.{cfmws_in, windows_of};

use crate::commands::BLOCK;
use crate::commands::lines::put_line;
use cxl_cedt::{Record, RecordText, TableText, one_reading};
use cxl_inputs::{Status, Stop, fetch_table, finish, text_windows};
use cxl_io::{Fetch, Lines, Memory, Sink, writes_join};
use cxl_window::Window;
use std::alloc::Global;

/// Writes a line for each record of the table in a file. Lines go out in blocks, so that memory holds one
/// block and never the whole text.
pub(crate) fn list<F: Fetch, K: Sink>(
    alloc: Global,
    file: &str,
    files: &mut F,
    out: &mut K,
) -> Status
    ensures run { IsRunByFiles (Listing file.now) (outside (F.state files.old) (K.state out.old))
        (outside (F.state files.new) (K.state out.new)) result }
    ensures files { (F.state files.old).faults ≤ (F.state files.new).faults }
    ensures sink { (K.state out.old).faults ≤ (K.state out.new).faults }
    ensures told { (F.state files.new).told ≡ (F.state files.old).told }
{
    match judged(alloc, file, files) {
        Ok((table, windows)) => match write_lines(alloc, &table, &windows, out) {
            Ok(status) => status,
            Err(Memory) => Status::Memory,
        },
        Err(stop) => finish(Err(stop), out),
    }
}

/// The table in a file and its windows, which are judged without a topology.
fn judged<F: Fetch>(
    alloc: Global,
    file: &str,
    files: &mut F,
) -> Result<(TableText, Vec<Window>), Stop>
    ensures table { IfOk result (λ read. IsTableOf ((F.state files.old).told file.now) read.0) }
    ensures windows { IfOk result (λ read. read.1.items ≡ windows_of read.0.records None) }
    ensures asked { OnOk result (AsksFor (F.state files.old) (F.state files.new) (file.now ∷ [])) }
    ensures unfailed { OnOk result (HasNotFailed (F.state files.old) (F.state files.new)) }
    ensures stops { IfErr result (IsStop (HasNoTable file.now (F.state files.old) (F.state files.new))
        (RunsOutBehind (file.now ∷ []) (F.state files.old) (F.state files.new))) }
    ensures counts { (F.state files.old).faults ≤ (F.state files.new).faults }
    ensures stays { (F.state files.new).told ≡ (F.state files.old).told }
{
    let table = fetch_table(alloc, file, files)?;
    let windows = text_windows(alloc, &table, None)?;
    Ok((table, windows))
}

/// Writes the lines of a table's records as they are walked. These are the table's windows in order.
fn write_lines<K: Sink>(
    alloc: Global,
    table: &TableText,
    windows: &[Window],
    out: &mut K,
) -> Result<Status, Memory>
    requires { windows.now ≡ windows_of table.now.records None }
    ensures ends { IfOk result (λ status. Ends (listed table.now.records) status (K.state out.old) (K.state out.new)) }
    ensures behind { OnErr result (IsBehind (listed table.now.records) (K.state out.old) (K.state out.new)) }
    ensures counts { (K.state out.old).faults ≤ (K.state out.new).faults }
{
    writes_join();
    let mut lines: Lines<BLOCK> = Lines::new(alloc);
    let mut place = 0;
    let mut records = table.records();
    while let Some(item) = records.next() {
        put_line(&mut lines.block, &item, windows, place)?;
        if lines.line_done(out).is_err() {
            return Ok(Status::WriteFault);
        }
        place += window_count(&item);
    }
    if lines.end(out).is_err() {
        return Ok(Status::WriteFault);
    }
    Ok(Status::Done)
}

/// How many windows a record is: one or none.
fn window_count(item: &RecordText<'_>) -> usize
    ensures value { result ≡ length (filter_map cfmws_in (record_in item.now ∷ [])) }
    ensures few { result ≤ 1 }
{
    match item {
        RecordText::Judged(Record::Cfmws(_)) => 1,
        _ => 0,
    }
}

/// Laws of each run of `list`.
pub fn list_statuses()
    // With status 0 it writes exactly a line for each record of the file's table.
    ensures list { EachRunByFiles (λ form old new status. (file : List ℕ) → form ≡ Listing file → status ≡ Status.Done
        → (text : List ℕ) × IsListText (old.files.told file) text × Takes old.out new.out text) }
    // Where the file has a table, its lines are written, unless the run stops before.
    ensures listed { EachRunByFiles (λ form old new status. (file bytes : List ℕ) (table : CedtFields)
        → form ≡ Listing file → old.files.told file ≡ Bytes bytes → IsReading bytes table
        → IsWritten (listed table.records) status old.out new.out ⊎ IsStopped status old new) }
    // Where memory ran out, nothing is written, or whole lines of the table's first records.
    ensures memory { EachRunByFiles (λ form old new status. (file : List ℕ) → form ≡ Listing file
        → status ≡ Status.Memory
        → (new.out.taken ≡ old.out.taken) ⊎ TakesLines (old.files.told file) old.out new.out) }
{
    one_reading();
}
