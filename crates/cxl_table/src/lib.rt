//! The ACPI CEDT as a table of records: the CXL host bridges (CHBS), the fixed memory windows (CFMWS) and the XOR maps (CXIMS)
//! of a host, and how many bytes spell each.
#![tactic(auto)]

mod cedt;
mod cfmws;
mod chbs;
mod cxims;
mod kinds;
pub mod layout;
mod lengths;
mod other;

pub use cedt::{Cedt, Head, Record};
pub use cfmws::Cfmws;
pub use chbs::Chbs;
pub use cxims::Cxims;
pub use cxl_enc::FixedList;
pub use kinds::kind_of;
pub use other::Other;
