//! How long the texts of records are, and how many records of a type there are.

ghost use Rattle.std.specs.Prelude.{◌≡◌, ◌≤◌, nat_le, if◌then◌else◌, Some, None};
ghost use Rattle.cxl_enc.specs.Limits.{file_limit};
ghost use Rattle.cxl_table.specs.Records.{record_length, table_length, count_of};

use crate::cedt::Record;
use crate::kinds::kind_of;
use crate::layout::{CHBS_SIZE, FRAME_SIZE, HEADER_SIZE, MAPS_FRONT_SIZE, WINDOW_FRONT_SIZE};
use cxl_enc::FILE_LIMIT;

/// The length of the text of a record.
fn record_length(item: &Record) -> u32
    ensures length { result ≡ record_length item.now }
    ensures few { result ≤ 65535 }
{
    match item {
        Record::Chbs(_) => u32::from(CHBS_SIZE),
        Record::Cfmws(window) => u32::from(WINDOW_FRONT_SIZE) + 4 * window.targets().len() as u32,
        Record::Cxims(maps) => u32::from(MAPS_FRONT_SIZE) + 8 * maps.maps().len() as u32,
        Record::Other(other) => u32::from(FRAME_SIZE) + other.body().len() as u32,
    }
}

/// The length of the text of a table, where that is no longer than a file may be.
fn length_in_file(records: &[Record]) -> Option<u32>
    ensures { result ≡ (if nat_le (table_length records.now) file_limit then Some (table_length records.now) else None) }
{
    let mut size = HEADER_SIZE as u32;
    for item in records {
        size += record_length(item);
        if size > FILE_LIMIT as u32 {
            return None;
        }
    }
    Some(size)
}

/// The length of the text of a table.
pub fn table_length(records: &[Record]) -> u32
    requires { table_length records.now ≤ file_limit }
    ensures { result ≡ table_length records.now }
{
    length_in_file(records).unwrap()
}

/// Whether that is no longer than a file may be.
pub fn fits_file(records: &[Record]) -> bool
    ensures { result ≡ nat_le (table_length records.now) file_limit }
{
    length_in_file(records).is_some()
}

/// How many records of a type there are.
pub fn count_of(kind: u8, records: &[Record]) -> usize
    ensures { result ≡ count_of kind records.now }
{
    records.iter().filter(|item| kind_of(item) == kind).count()
}
