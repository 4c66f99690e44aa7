//! The file of a table: its reading, or the text of its first fault.

ghost use Rattle.std.specs.Prelude.{◌≡◌, ◌≢◌, ◌≤◌, ⊤, [], ◌∷◌, IfOk, IfErr, OnOk};
ghost use Rattle.cxl_cedt.specs.declared.fault.CedtFault.{CedtFault};
ghost use Rattle.cxl_io.specs.Fetch.{AsksFor};
ghost use Rattle.cxl_inputs.specs.File.{HasNotFailed, RunsOutBehind};
ghost use Rattle.cxl_inputs.specs.Stop.{IsStop};
ghost use Rattle.cxl_inputs.specs.Table.{IsTableOf, HasNoTable, bad_table, fault_word, fault_place, IsReading};
ghost use Rattle.cxl_inputs.specs.Given.{SpellNoTable};

use crate::faults::fault_line;
use crate::file::{fetch_file, within_limit};
use crate::outcome::Outcome;
use crate::status::Status;
use crate::stop::Stop;
use cxl_cedt::{Cedt, CedtFault, TableText, read, read_text};
use cxl_io::{Fetch, Memory};
use std::alloc::Global;

/// The table of a command's first file, of which no record is copied but those that are judged. Where there is none it
/// stops with what is told of the file, or for want of memory, and no other file was asked for.
pub fn fetch_table<F: Fetch>(alloc: Global, file: &str, files: &mut F) -> Result<TableText, Stop>
    ensures table { IfOk result (IsTableOf ((F.state files.old).told file.now)) }
    ensures asked { OnOk result (AsksFor (F.state files.old) (F.state files.new) (file.now ∷ [])) }
    ensures unfailed { OnOk result (HasNotFailed (F.state files.old) (F.state files.new)) }
    ensures stops { IfErr result (IsStop (HasNoTable file.now (F.state files.old) (F.state files.new))
        (RunsOutBehind (file.now ∷ []) (F.state files.old) (F.state files.new))) }
    ensures counts { (F.state files.old).faults ≤ (F.state files.new).faults }
    ensures stays { (F.state files.new).told ≡ (F.state files.old).told }
{
    let bytes = fetch_file(alloc, file, files)?;
    match read_text(alloc, bytes) {
        Ok(table) => Ok(table),
        Err(fault) => Err(Stop::of(faulty(alloc, fault))),
    }
}

/// The table that the bytes of a file of this name spell. It stops where they spell none. Takes memory.
pub fn given_table(alloc: Global, file: &str, bytes: &[u8]) -> Result<Cedt, Stop>
    ensures table { IfOk result (IsReading bytes.now) }
    ensures stops { IfErr result (IsStop (SpellNoTable file.now bytes.now) ⊤) }
{
    within_limit(alloc, file, bytes)?;
    match read(alloc, bytes) {
        Ok(table) => Ok(table),
        Err(fault) => Err(Stop::of(faulty(alloc, fault))),
    }
}

/// The first fault of a table. Want of memory in the reader is want of memory here.
fn faulty(alloc: Global, fault: CedtFault) -> Result<Outcome, Memory>
    ensures { IfOk result (λ outcome. (fault ≢ CedtFault.Memory) × (outcome ≡ bad_table fault)) }
{
    if fault == CedtFault::Memory {
        return Err(Memory);
    }
    let text = fault_line(alloc, "table", fault_word(fault), fault_place(fault))?;
    Ok(Outcome::made(Status::BadTable(fault), text))
}

fn fault_word(fault: CedtFault) -> &'static str
    ensures { result.now ≡ fault_word fault }
{
    match fault {
        CedtFault::Short => "short",
        CedtFault::Signature => "signature",
        CedtFault::Length => "length",
        CedtFault::Checksum => "checksum",
        CedtFault::RecordCut(_) => "record-cut",
        CedtFault::RecordLength(_) => "record-length",
        CedtFault::WaysCode(_) => "ways-code",
        CedtFault::GranCode(_) => "gran-code",
        CedtFault::Arithmetic(_) => "arithmetic",
        CedtFault::TooMany(_) => "too-many",
        CedtFault::Memory => "memory",
    }
}

/// The byte at which the record begins that has the fault.
fn fault_place(fault: CedtFault) -> Option<u32>
    ensures { result ≡ fault_place fault }
{
    match fault {
        CedtFault::RecordCut(at)
        | CedtFault::RecordLength(at)
        | CedtFault::WaysCode(at)
        | CedtFault::GranCode(at)
        | CedtFault::Arithmetic(at)
        | CedtFault::TooMany(at) => Some(at),
        CedtFault::Short
        | CedtFault::Signature
        | CedtFault::Length
        | CedtFault::Checksum
        | CedtFault::Memory => None,
    }
}
