//! The way from a bridge down to a node.

ghost use Rattle.std.specs.Prelude.{◌≤◌};

/// The way from a bridge down to a node: the first `len` of `nodes`, the others being zero. It has at
/// most a bridge, four switches and an endpoint.
#[derive(Clone, Copy, PartialEq, Eq)]
pub struct Path {
    pub len: u8,
    pub nodes: [u32; 6],
    ghost fits: { len ≤ 6 },
}
