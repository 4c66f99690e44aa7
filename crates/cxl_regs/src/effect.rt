//! What becomes of a write to a register word.

/// What became of a write to a register word.
#[derive(Clone, Copy, PartialEq, Eq)]
pub enum Effect {
    /// The word took the bits that count.
    Written,
    /// Nothing changed.
    Dropped,
    /// The decoder is committed now.
    Committed,
    /// The decoder is not committed any more.
    Released,
    /// The decoder was to be committed and breaks this rule. Its commit and error bits are set.
    NotCommitted(CommitRule),
}

/// The rules of a commit, in the order in which they are judged. (CXL HDM decoder commit; `NotEnabled`,
/// `ZeroSize` and `Select` are this project's rules.)
#[derive(Clone, Copy, PartialEq, Eq)]
pub enum CommitRule {
    /// The block is an endpoint's, and decoding is not enabled.
    NotEnabled,
    /// The size is 0.
    ZeroSize,
    /// The decoder before is not committed.
    Order,
    /// The base lies below the end of the decoder before.
    Rise,
    /// The block has no such ways or granularity.
    Codes,
    /// The block cannot select on these address bits.
    Select,
}
