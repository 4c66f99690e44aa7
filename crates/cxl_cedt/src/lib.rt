//! The bytes of an ACPI CEDT: which of them spell a table, what the first fault is, and how a table is written.
#![tactic(auto)]

mod counted;
mod decoding;
mod fault;
mod header;
mod layout;
mod mending;
mod numbers;
mod reading;
mod record_faults;
mod records;
mod table_text;
mod writing;

pub use cxl_enc::FixedList;
pub use cxl_table::{Cedt, Cfmws, Chbs, Cxims, Head, Other, Record};
pub use fault::CedtFault;
pub use reading::{one_reading, read};
pub use records::{OtherText, RecordText, Records};
pub use table_text::{TableText, read_text};
pub use writing::write;
