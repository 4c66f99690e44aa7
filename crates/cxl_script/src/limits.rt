//! The limits of a line (this project's rules), as `specs/Grammar.antt` names them for contracts.

/// The most bytes of a load or a store.
pub(crate) const ACCESS_LIMIT: u64 = 256;

/// The most bytes of a range.
pub(crate) const RANGE_LIMIT: u64 = 65_536;

/// The most steps of one line.
pub(crate) const STEP_LIMIT: u64 = 1_000_000;

/// The most endpoints that are picked.
pub(crate) const WAYS_LIMIT: u64 = 16;
