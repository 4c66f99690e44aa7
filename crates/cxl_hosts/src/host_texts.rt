//! The worked hosts that several tables speak of, each once: its nodes, the windows over it and the decoders that are
//! committed, as `hosts.rt` reads them. A host's name says its bridges and how many endpoints each has.

// ---- nodes

/// Two bridges with an endpoint of 2 GiB each.
pub(crate) const TWO_BY_ONE: &str =
    "0x382, 0x382, 0x1b02 0 0 0x80000000 0, 0x1b02 1 0 0x80000000 0";

/// The same with bridges that forward.
pub(crate) const TWO_FORWARDING: &str =
    "0x10, 0x10, 0x1b02 0 0 0x80000000 0, 0x1b02 1 0 0x80000000 0";

/// Two bridges with two endpoints of 256 GiB each.
pub(crate) const TWO_BY_TWO: &str = "0x382, 0x382, \
    0x1b02 0 0 0x4000000000 0, 0x1b02 0 1 0x4000000000 0, \
    0x1b02 1 0 0x4000000000 0, 0x1b02 1 1 0x4000000000 0";

/// Three bridges with two endpoints of 2 GiB each.
pub(crate) const THREE_BY_TWO: &str = "0x382, 0x382, 0x382, \
    0x1b02 0 0 0x80000000 0, 0x1b02 0 1 0x80000000 0, \
    0x1b02 1 0 0x80000000 0, 0x1b02 1 1 0x80000000 0, \
    0x1b02 2 0 0x80000000 0, 0x1b02 2 1 0x80000000 0";

/// Six bridges with an endpoint of 2 GiB each.
pub(crate) const SIX_BY_ONE: &str = "0x382, 0x382, 0x382, 0x382, 0x382, 0x382, \
    0x1b02 0 0 0x80000000 0, 0x1b02 1 0 0x80000000 0, 0x1b02 2 0 0x80000000 0, \
    0x1b02 3 0 0x80000000 0, 0x1b02 4 0 0x80000000 0, 0x1b02 5 0 0x80000000 0";

// ---- windows

/// 4 GiB over the first bridge.
pub(crate) const OVER_ONE: &str = "0x100000000 0x100000000 0 0 0x000e 0";

/// 4 GiB over two bridges.
pub(crate) const OVER_TWO: &str = "0x100000000 0x100000000 0 0 0x000e 0 1";

/// 1.5 GiB over three bridges.
pub(crate) const OVER_THREE_LONG: &str = "0x100000000 0x60000000 0 0 0x000e 0 1 2";

/// 1.5 GiB over six bridges, with XOR arithmetic.
pub(crate) const OVER_SIX_XOR: &str = "0x100000000 0x60000000 0 1 0x000e 0 1 2 3 4 5";

// ---- decoders that are committed

/// A region of two ways, of 512 MiB, over two bridges with an endpoint each.
pub(crate) const TWO_WAYS: &str =
    "0 2 0 0x100000000 0x20000000 0 0, 2 4 0 0x100000000 0x20000000 0x10 0";

/// The same below bridges that forward.
pub(crate) const TWO_WAYS_BELOW: &str = "2 4 0 0x100000000 0x20000000 0x10 0";

/// A region of six ways from three, two below each bridge.
pub(crate) const SIX_WAYS_FROM_THREE: &str =
    "0 3 0 0x100000000 0x60000000 0x10 0x0100, 3 9 0 0x100000000 0x60000000 0x90 0";

/// A region of six ways over six bridges with an endpoint each.
pub(crate) const SIX_WAYS: &str =
    "0 6 0 0x100000000 0x60000000 0 0, 6 12 0 0x100000000 0x60000000 0x90 0";

/// One bridge with an endpoint of 1 GiB of each kind.
pub(crate) const ONE_OF_BOTH_KINDS: &str = "0x382, 0x1b02 0 0 0x40000000 0x40000000";

/// 1 TiB over two bridges.
pub(crate) const OVER_TWO_LONG: &str = "0x1000000000 0x10000000000 0 0 0x000e 0 1";

/// Three bridges with an endpoint of 256 MiB each.
pub(crate) const THREE_BY_ONE: &str = "0x382, 0x382, 0x382, \
    0x1b02 0 0 0x10000000 0, 0x1b02 1 0 0x10000000 0, 0x1b02 2 0 0x10000000 0";
