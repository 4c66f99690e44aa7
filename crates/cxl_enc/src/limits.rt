//! The limits and the named numbers of which several layers speak, as `specs/Limits.antt` names them for
//! contracts. (This project's rules, where no other source is named.)

/// 256 MiB, in bytes: bases, sizes and capacities are multiples of it. (CXL HDM decoder base and size.)
pub const UNIT: u64 = 1 << 28;

/// 2^52: host addresses are below it, and no device holds more bytes.
pub const ADDRESS_LIMIT: u64 = 1 << 52;

/// The most bytes of a file.
pub const FILE_LIMIT: usize = 1_048_576;

/// The most frames of 256 bytes that hold device memory.
pub const FRAME_LIMIT: u32 = 1_048_576;

/// The most nodes of a topology.
pub const NODE_LIMIT: usize = 1_024;

/// The most host bridges of a topology.
pub const BRIDGE_LIMIT: usize = 64;

/// The capability word of the block that stands in the place of a node that forwards: one decoder, one
/// target.
pub const PLACEHOLDER_CAP: u32 = 0x10;
