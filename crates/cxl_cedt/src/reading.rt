//! The reader: the table that bytes spell, or their first fault.

ghost use Rattle.std.specs.Prelude.{◌≡◌, ℕ, ◌⊎◌, ◌≤◌, List, length, None, Result, Ok, Err, IfOk, IfErr, OnOk};
ghost use Rattle.cxl_enc.specs.Limits.{file_limit};
ghost use Rattle.cxl_table.specs.CedtFields.{CedtFields};
ghost use Rattle.cxl_table.specs.Layout.{header_size};
ghost use Rattle.cxl_cedt.specs.inner.Kept.{IsKeptIn};
ghost use Rattle.cxl_cedt.specs.declared.fault.CedtFault.{CedtFault};
ghost use Rattle.cxl_cedt.specs.Table.{IsTableText, header_fault, IsRecordFault, FirstTableFault, HasTable, HasFault, IsFaultOf, IsAnswer, IsReadAs};

use crate::counted::{CountedRecords, Others};
use crate::decoding::add_record;
use crate::fault::CedtFault;
use crate::header::{head_of, header_fault};
use crate::layout::HEADER_SIZE;
use crate::record_faults::{length_said, record_fault};
use cxl_table::Cedt;
use std::alloc::Global;

/// The table that the bytes spell, or their first fault: of the header in the order of `CedtFault`, and
/// then of the first record that has one. What a record does not name may hold anything. Takes memory for
/// the records. (ACPI CEDT; the order of faults and the limits are this project's rule.)
pub fn read(alloc: Global, bytes: &[u8]) -> Result<Cedt, CedtFault>
    requires { length bytes.now ≤ file_limit }
    ensures table { IfOk result (λ cedt. IsTableText bytes.now cedt) }
    ensures fault { IfErr result (λ fault. IsFaultOf bytes.now fault) }
    // A table that the bytes spell is read, and a first fault is answered, unless memory runs out.
    ensures only_table { (cedt : CedtFields) → IsTableText bytes.now cedt → IsAnswer result (Ok cedt) }
    ensures only_fault { (fault : CedtFault) → FirstTableFault bytes.now fault → IsAnswer result (Err fault) }
{
    cedt_from(alloc, bytes)
}

/// Bytes spell one table at the most, or have one first fault: one of the two, and never both.
pub fn one_reading()
    ensures one_table { (bytes : List ℕ) (cedt other : CedtFields) →
        IsTableText bytes cedt → IsTableText bytes other → cedt ≡ other }
    ensures one_fault { (bytes : List ℕ) (fault other : CedtFault) →
        FirstTableFault bytes fault → FirstTableFault bytes other → fault ≡ other }
    ensures not_both { (bytes : List ℕ) (cedt : CedtFields) (fault : CedtFault) →
        IsTableText bytes cedt → FirstTableFault bytes fault → ⊥ }
    ensures some { (bytes : List ℕ) → HasTable bytes ⊎ HasFault bytes }
    // So two readers answer alike, unless memory runs out for one of them.
    ensures alike { (bytes : List ℕ) (one other : Result CedtFields CedtFault) →
        IsReadAs bytes one → IsReadAs bytes other → IsAnswer one other ⊎ (other ≡ Err CedtFault.Memory) }
{}

fn cedt_from(alloc: Global, bytes: &[u8]) -> Result<Cedt, CedtFault>
    requires { length bytes.now ≤ file_limit }
    ensures table { IfOk result (λ cedt. IsTableText bytes.now cedt) }
    ensures fault { IfErr result (λ fault. IsFaultOf bytes.now fault) }
{
    let kept = judged(alloc, bytes, Others::Kept)?;
    Ok(Cedt::of_size(head_of(bytes), kept.into_records(), bytes.len() as u32))
}

/// The records of a table that its reader keeps, or the bytes' first fault.
pub(crate) fn judged(
    alloc: Global,
    bytes: &[u8],
    others: Others,
) -> Result<CountedRecords, CedtFault>
    requires { length bytes.now ≤ file_limit }
    ensures header { OnOk result (header_fault bytes.now ≡ None) }
    ensures kept { IfOk result (λ kept. IsKeptIn others bytes.now kept) }
    ensures fault { IfErr result (λ fault. IsFaultOf bytes.now fault) }
{
    if let Some(fault) = header_fault(bytes) {
        return Err(fault);
    }
    records_of(alloc, bytes, others)
}

/// The records behind the header that are kept, or the fault of the first that has one.
#[inline(never)]
fn records_of(alloc: Global, bytes: &[u8], others: Others) -> Result<CountedRecords, CedtFault>
    requires long { header_size ≤ length bytes.now }
    requires short { length bytes.now ≤ file_limit }
    ensures kept { IfOk result (λ kept. IsKeptIn others bytes.now kept) }
    ensures fault { IfErr result (λ fault. (fault ≡ CedtFault.Memory) ⊎ IsRecordFault bytes.now fault) }
{
    let mut kept = CountedRecords::new(alloc);
    let mut rest = &bytes[HEADER_SIZE..];
    let mut at = HEADER_SIZE as u32;
    while !rest.is_empty() {
        if let Some(fault) = record_fault(&kept, rest, at) {
            return Err(fault);
        }
        let (text, after) = rest.split_at(length_said(rest) as usize);
        add_record(alloc, &mut kept, others, text, at)?;
        rest = after;
        at += text.len() as u32;
    }
    Ok(kept)
}
