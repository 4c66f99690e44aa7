//! The type of a record.

ghost use Rattle.std.specs.Prelude.{◌≡◌};
ghost use Rattle.cxl_table.specs.Records.{kind_of};

use crate::cedt::Record;
use crate::layout::{CFMWS_KIND, CHBS_KIND, CXIMS_KIND};

/// The type that stands in the first byte of a record's text.
pub fn kind_of(item: &Record) -> u8
    ensures { result ≡ kind_of item.now }
{
    match item {
        Record::Chbs(_) => CHBS_KIND,
        Record::Cfmws(_) => CFMWS_KIND,
        Record::Cxims(_) => CXIMS_KIND,
        Record::Other(other) => other.kind(),
    }
}
