//! Why no set of so many endpoints has a legal plan in a window.

/// Why no set of so many endpoints has a legal plan in a window, in the order in which it is tried.
#[derive(Clone, Copy, Debug, PartialEq, Eq)]
pub enum SetReason {
    /// Its verdict is another than usable.
    Unusable,
    /// Its restrictions do not permit the kind of memory.
    Kind,
    /// Its restrictions fix its configuration.
    Fixed,
    /// It has more than one way, and another granularity than the stated one.
    Gran,
    /// Only so many endpoints with memory of the kind lie below its target bridges, fewer than are wanted.
    Few(u32),
    /// No so many of them have codes with which each node on their paths could select.
    NoCodes,
    /// None that have codes have room in common. The largest size in bytes at which some have, or that there is none.
    NoRoom(Option<u64>),
}
