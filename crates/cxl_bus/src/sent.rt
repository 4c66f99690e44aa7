//! A write that a bus was sent, as its trail has it.

/// A write that was answered `Ok`.
#[derive(Clone, Copy, PartialEq, Eq)]
pub struct Sent {
    pub node: u32,
    pub off: u32,
    pub value: u32,
}
