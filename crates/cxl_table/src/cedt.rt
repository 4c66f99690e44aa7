//! A table as its header and the list of its records.

ghost use Rattle.std.specs.Prelude.{◌≡◌, ◌≤◌};
ghost use Rattle.cxl_enc.specs.Limits.{file_limit};
ghost use Rattle.cxl_table.specs.Records.{table_length, HasFewOfEach};

use crate::cfmws::Cfmws;
use crate::chbs::Chbs;
use crate::cxims::Cxims;
use crate::layout::{CFMWS_KIND, CHBS_KIND, CXIMS_KIND, KIND_LIMIT};
use crate::lengths::{count_of, fits_file, table_length};
use crate::other::Other;
use cxl_enc::FixedList;
use std::marker::Model;

/// The header's fields, but for the signature, the length and the checksum, which follow from the table.
#[derive(Clone, Copy, PartialEq, Eq)]
pub struct Head {
    pub revision: u8,
    pub oem_id: [u8; 6],
    pub oem_table: [u8; 8],
    pub oem_revision: u32,
    pub creator: [u8; 4],
    pub creator_revision: u32,
}

/// A record of the table.
#[derive(Drop)]
pub enum Record {
    Chbs(Chbs),
    Cfmws(Cfmws),
    Cxims(Cxims),
    Other(Other),
}

/// A CEDT: at most 64 records each are CHBS, CFMWS and CXIMS, and its text has at most 1,048,576 bytes.
#[derive(Drop)]
pub struct Cedt {
    head: Head,
    records: FixedList<Record>,
    // How many bytes spell it, so that who writes it need not go through the records for that.
    size: u32,
}

impl Model for Cedt {
    ghost use Rattle.cxl_table.specs.CedtFields.{CedtFields, IsSizedCedt};

    ghost Value = { CedtFields };

    ghost view = { λ c. record { head = c.head; records = c.records } };

    ghost invariant = { λ c. IsSizedCedt c.records c.size };
}

impl Cedt {
    ghost use Rattle.std.specs.Prelude.{◌↔◌, IsTrue};
    ghost use Rattle.std.specs.Bool.{OnTrue};
    ghost use Rattle.cxl_table.specs.CedtFields.{IsCedt};

    /// Whether a table may have these records: no more than 64 of each of the three types, and a text of
    /// at most 1,048,576 bytes. (This project's rule.)
    pub fn can_hold(records: &[Record]) -> bool
        ensures exact { IsTrue result ↔ IsCedt records.now }
        ensures few { OnTrue result (HasFewOfEach records.now) }
        ensures fits { OnTrue result (table_length records.now ≤ file_limit) }
    {
        let limit = usize::from(KIND_LIMIT);
        count_of(CHBS_KIND, records) <= limit
            && count_of(CFMWS_KIND, records) <= limit
            && count_of(CXIMS_KIND, records) <= limit
            && fits_file(records)
    }

    /// The table of these records in order; `can_hold` tells whether there is one. Takes no memory.
    pub fn new(head: Head, records: Vec<Record>) -> Cedt
        requires few { HasFewOfEach records.items }
        requires fits { table_length records.items ≤ file_limit }
        ensures { result ≡ record { head = head; records = records.items } }
    {
        let size = table_length(&records);
        Cedt::of_size(head, records, size)
    }

    /// The table of these records in order, which `size` bytes spell. Takes no memory.
    pub fn of_size(head: Head, records: Vec<Record>, size: u32) -> Cedt
        requires few { HasFewOfEach records.items }
        requires fits { table_length records.items ≤ file_limit }
        requires size { size ≡ table_length records.items }
        ensures { result ≡ record { head = head; records = records.items } }
    {
        Cedt {
            head,
            records: FixedList::new(records),
            size,
        }
    }

    /// How many bytes spell the table.
    pub fn size(&self) -> u32
        ensures { result ≡ table_length self.now.records }
    {
        self.size
    }

    /// The header's fields.
    pub fn head(&self) -> &Head
        ensures { result.now ≡ self.now.head }
    {
        &self.head
    }

    /// The records in table order.
    pub fn records(&self) -> &[Record]
        ensures value { result.now ≡ self.now.records }
        ensures few { HasFewOfEach self.now.records }
        ensures fits { table_length self.now.records ≤ file_limit }
    {
        self.records.items()
    }
}
