//! Where the fields of a CEDT stand, as the layout of `cxl_table` names them for contracts: byte places from the front of the
//! header or of a record. (ACPI CEDT.)

pub use cxl_table::layout::{
    CFMWS_KIND, CHBS_KIND, CHBS_SIZE, CXIMS_KIND, FRAME_SIZE, HEADER_SIZE, KIND_LIMIT,
    MAPS_FRONT_SIZE, WINDOW_FRONT_SIZE,
};

// The header.

pub const TABLE_LENGTH_PLACE: usize = 4;

pub const REVISION_PLACE: usize = 8;

pub const CHECKSUM_PLACE: usize = 9;

pub const OEM_ID_PLACE: usize = 10;

pub const OEM_TABLE_PLACE: usize = 16;

pub const OEM_REVISION_PLACE: usize = 24;

pub const CREATOR_PLACE: usize = 28;

pub const CREATOR_REVISION_PLACE: usize = 32;

// Each record.

pub const KIND_PLACE: usize = 0;

pub const RESERVED_PLACE: usize = 1;

pub const LENGTH_PLACE: usize = 2;

// CHBS.

pub const UID_PLACE: usize = 4;

pub const VERSION_PLACE: usize = 8;

pub const REGISTER_BASE_PLACE: usize = 16;

pub const REGISTER_LENGTH_PLACE: usize = 24;

// CFMWS.

pub const WINDOW_BASE_PLACE: usize = 8;

pub const WINDOW_SIZE_PLACE: usize = 16;

pub const WAYS_PLACE: usize = 24;

pub const ARITHMETIC_PLACE: usize = 25;

pub const WINDOW_GRAN_PLACE: usize = 28;

pub const RESTRICT_PLACE: usize = 32;

pub const QTG_PLACE: usize = 34;

// CXIMS.

pub const MAPS_GRAN_PLACE: usize = 6;

pub const MAPS_COUNT_PLACE: usize = 7;
