//! The end of a range of addresses.

ghost use Rattle.std.specs.Prelude.{◌+◌, ◌^◌, ◌<◌, SomeIff};

/// The end of the range of `size` bytes at the address `base`: the first address behind it. `None` where
/// that is 2^64 or more.
pub fn checked_end(base: u64, size: u64) -> Option<u64>
    ensures { SomeIff result (base + size < 2 ^ 64) (base + size) }
{
    base.checked_add(size)
}
