//! The record types of a CEDT, and how many bytes its fixed parts take, as `specs/Layout.antt` names them for contracts.
//! (ACPI CEDT.)

/// The type of a host bridge's record.
pub const CHBS_KIND: u8 = 0;

/// The type of a fixed memory window's record.
pub const CFMWS_KIND: u8 = 1;

/// The type of the record of a granularity's XOR maps.
pub const CXIMS_KIND: u8 = 2;

/// At most so many records of each of these types. (This project's rule.)
pub const KIND_LIMIT: u8 = 64;

/// Bytes of the header.
pub const HEADER_SIZE: usize = 36;

/// Bytes of a record's type, the byte after it, and its length. What follows in a record of another type is its body.
pub const FRAME_SIZE: u16 = 4;

/// Bytes of a CHBS.
pub const CHBS_SIZE: u16 = 32;

/// Bytes of a CFMWS without its targets, which begin there.
pub const WINDOW_FRONT_SIZE: u16 = 36;

/// Bytes of a CXIMS without its maps, which begin there.
pub const MAPS_FRONT_SIZE: u16 = 8;
