//! The bits of the words of a decoder block and of a window's restrictions, each by its number, as `specs/Bits.antt` names
//! them for contracts.

/// Capability: the block can select on the address bits 11:8. (CXL HDM decoder capability.)
pub const CAP_LOW: u8 = 8;

/// Capability: the block can select on the address bits 14:12. (CXL HDM decoder capability.)
pub const CAP_HIGH: u8 = 9;

/// Capability: the block can have the ways 3, 6 and 12. (CXL HDM decoder capability.)
pub const CAP_WAYS3: u8 = 11;

/// Capability: the block can have the ways 16. (CXL HDM decoder capability.)
pub const CAP_WAYS16: u8 = 12;

/// Global control: the block decodes. (CXL HDM decoder global control.)
pub const GLOBAL_ENABLE: u8 = 1;

/// Control: a committed decoder keeps its registers. (CXL HDM decoder control.)
pub const CONTROL_LOCK: u8 = 8;

/// Control: the decoder is to commit. (CXL HDM decoder control.)
pub const CONTROL_COMMIT: u8 = 9;

/// Control: the decoder is committed. (CXL HDM decoder control.)
pub const CONTROL_COMMITTED: u8 = 10;

/// Control: the decoder was to commit, and could not. (CXL HDM decoder control.)
pub const CONTROL_ERROR: u8 = 11;

/// Control: the range is host-only coherent. (CXL HDM decoder control.)
pub const CONTROL_HOST_ONLY: u8 = 12;

/// Restrictions: the window permits host-only coherent memory. (CEDT CFMWS window restrictions.)
pub const WINDOW_HOST_ONLY: u8 = 1;

/// Restrictions: the window permits volatile memory. (CEDT CFMWS window restrictions.)
pub const WINDOW_RAM: u8 = 2;

/// Restrictions: the window permits persistent memory. (CEDT CFMWS window restrictions.)
pub const WINDOW_PMEM: u8 = 3;

/// Restrictions: the configuration of the window is fixed. (CEDT CFMWS window restrictions.)
pub const WINDOW_FIXED: u8 = 4;
