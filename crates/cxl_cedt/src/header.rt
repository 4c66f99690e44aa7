//! The header: its first fault and its fields.

ghost use Rattle.std.specs.Prelude.{◌≡◌, ◌≤◌, ◌%◌, length, sum, IfNone};
ghost use Rattle.cxl_table.specs.Layout.{header_size, revision_place, oem_id_place, oem_table_place, oem_revision_place, creator_place, creator_revision_place};
ghost use Rattle.cxl_cedt.specs.Table.{header_fault, has_signature, field, some_bytes};

use crate::fault::CedtFault;
use crate::layout::{
    CREATOR_PLACE, CREATOR_REVISION_PLACE, HEADER_SIZE, OEM_ID_PLACE, OEM_REVISION_PLACE,
    OEM_TABLE_PLACE, REVISION_PLACE, TABLE_LENGTH_PLACE,
};
use crate::numbers::{u8_at, u32_at};
use cxl_table::Head;

/// The first fault of the header.
#[tactic(auto, unfolding(crate::specs::Table::header_fault))]
pub fn header_fault(bytes: &[u8]) -> Option<CedtFault>
    ensures value { result ≡ header_fault bytes.now }
    ensures long { IfNone result (header_size ≤ length bytes.now) }
{
    if bytes.len() < HEADER_SIZE {
        return Some(CedtFault::Short);
    }
    if !has_signature(bytes) {
        return Some(CedtFault::Signature);
    }
    if u32_at(bytes, TABLE_LENGTH_PLACE) as usize != bytes.len() {
        return Some(CedtFault::Length);
    }
    if checksum(bytes) != 0 {
        return Some(CedtFault::Checksum);
    }
    None
}

fn has_signature(bytes: &[u8]) -> bool
    ensures { result ≡ has_signature bytes.now }
{
    bytes.starts_with(b"CEDT")
}

/// The sum of the bytes modulo 256.
pub fn checksum(bytes: &[u8]) -> u8
    ensures { result ≡ sum bytes.now % 256 }
{
    let mut total: u8 = 0;
    for byte in bytes {
        total = total.wrapping_add(*byte);
    }
    total
}

/// The fields of the header.
pub fn head_of(bytes: &[u8]) -> Head
    requires { header_size ≤ length bytes.now }
    ensures revision { field bytes.now revision_place 1 ≡ result.revision }
    ensures oem_id { some_bytes bytes.now oem_id_place 6 ≡ result.oem_id }
    ensures oem_table { some_bytes bytes.now oem_table_place 8 ≡ result.oem_table }
    ensures oem_revision { field bytes.now oem_revision_place 4 ≡ result.oem_revision }
    ensures creator { some_bytes bytes.now creator_place 4 ≡ result.creator }
    ensures creator_revision { field bytes.now creator_revision_place 4 ≡ result.creator_revision }
{
    let mut oem_id = [0; 6];
    oem_id.copy_from_slice(&bytes[OEM_ID_PLACE..OEM_TABLE_PLACE]);
    let mut oem_table = [0; 8];
    oem_table.copy_from_slice(&bytes[OEM_TABLE_PLACE..OEM_REVISION_PLACE]);
    let mut creator = [0; 4];
    creator.copy_from_slice(&bytes[CREATOR_PLACE..CREATOR_REVISION_PLACE]);
    Head {
        revision: u8_at(bytes, REVISION_PLACE),
        oem_id,
        oem_table,
        oem_revision: u32_at(bytes, OEM_REVISION_PLACE),
        creator,
        creator_revision: u32_at(bytes, CREATOR_REVISION_PLACE),
    }
}
