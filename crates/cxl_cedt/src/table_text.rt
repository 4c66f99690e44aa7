//! A table that stays the bytes that spell it: what is judged is read, and nothing is copied.

ghost use Rattle.std.specs.Prelude.{◌≡◌, ◌≤◌, length, Ok, Err, IfOk, IfErr};
ghost use Rattle.cxl_enc.specs.Limits.{file_limit};
ghost use Rattle.cxl_table.specs.CedtFields.{CedtFields};
ghost use Rattle.cxl_cedt.specs.declared.fault.CedtFault.{CedtFault};
ghost use Rattle.cxl_cedt.specs.Spelling.{spelling};
ghost use Rattle.cxl_cedt.specs.Table.{IsTableText, FirstTableFault, IsFaultOf, IsAnswer};

use crate::counted::{CountedRecords, Others};
use crate::fault::CedtFault;
use crate::layout::HEADER_SIZE;
use crate::mending::normal_of;
use crate::reading::judged;
use crate::records::Records;
use cxl_enc::Memory;
use cxl_table::Record;
use std::alloc::Global;
use std::marker::Model;

/// The bytes of a table that are judged and not copied: of its records at most 64 each of CHBS, CFMWS and CXIMS are kept,
/// and none of another type.
#[derive(Drop)]
pub struct TableText {
    bytes: Vec<u8>,
    judged: CountedRecords,
}

impl Model for TableText {
    ghost use Rattle.cxl_table.specs.CedtFields.{CedtFields};
    ghost use Rattle.cxl_cedt.specs.Reading.{table_in};
    ghost use Rattle.cxl_cedt.specs.inner.Kept.{IsTextOf};

    ghost Value = { CedtFields };

    ghost view = { λ t. table_in t.bytes.items };

    ghost invariant = { λ t. IsTextOf t.bytes.items t.judged };
}

impl TableText {
    ghost use Rattle.cxl_table.specs.Judged.{judged_of};
    ghost use Rattle.cxl_table.specs.Records.{HasFewOfEach};

    /// The records of the three types that are judged, in table order.
    pub fn judged(&self) -> &[Record]
        ensures value { result.now ≡ judged_of self.now.records }
        ensures few { HasFewOfEach (judged_of self.now.records) }
    {
        self.judged.records()
    }

    /// The records in table order, of which none is copied.
    #[tactic(auto, unfolding(crate::specs::Reading::table_in))]
    pub fn records(&self) -> Records<'_>
        ensures { result ≡ self.now.records }
    {
        Records::new(&self.bytes[HEADER_SIZE..], self.judged.records())
    }

    /// The bytes of the table as `write` gives them, made in the place of those that were read. Takes memory for one record
    /// at a time.
    pub fn into_normal(self, alloc: Global) -> Result<Vec<u8>, Memory>
        ensures spelling { IfOk result (λ bytes. bytes.items ≡ spelling self) }
        ensures fits { IfOk result (λ bytes. length bytes.items ≤ file_limit) }
    {
        let TableText { bytes, judged } = self;
        normal_of(alloc, bytes, &judged)
    }
}

/// The table that the bytes spell, which are kept as they are, or their first fault, as `read` answers it. Takes memory for
/// the records that are judged alone.
pub fn read_text(alloc: Global, bytes: Vec<u8>) -> Result<TableText, CedtFault>
    requires { length bytes.items ≤ file_limit }
    ensures table { IfOk result (λ table. IsTableText bytes.items table) }
    ensures fault { IfErr result (λ fault. IsFaultOf bytes.items fault) }
    // A table that the bytes spell is read, and a first fault is answered, unless memory runs out.
    ensures only_table { (cedt : CedtFields) → IsTableText bytes.items cedt → IsAnswer result (Ok cedt) }
    ensures only_fault { (fault : CedtFault) → FirstTableFault bytes.items fault → IsAnswer result (Err fault) }
{
    text_of(alloc, bytes)
}

fn text_of(alloc: Global, bytes: Vec<u8>) -> Result<TableText, CedtFault>
    requires { length bytes.items ≤ file_limit }
    ensures table { IfOk result (λ table. IsTableText bytes.items table) }
    ensures fault { IfErr result (λ fault. IsFaultOf bytes.items fault) }
{
    let judged = judged(alloc, &bytes, Others::PassedOver)?;
    Ok(TableText { bytes, judged })
}
