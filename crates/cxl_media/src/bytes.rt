//! The bytes of a block, read and written from a place on.

ghost use Rattle.std.specs.Prelude.{◌≡◌, ◌+◌, ◌%◌, ◌≤◌, length};
ghost use Rattle.cxl_media.specs.Pool.{zeros};
ghost use Rattle.cxl_media.specs.Blocks.{bytes_from, overwritten, is_between};

/// Reads the bytes of a block from a place on.
pub fn read_block(block: &[u8], at: usize, into: &mut [u8])
    requires { at + length into.old ≤ length block.now }
    ensures { into.new ≡ bytes_from block.now at (length into.old) }
{
    into.copy_from_slice(&block[at..at + into.len()]);
}

/// Reads the bytes of a block that is not in the map.
pub fn read_zeros(at: usize, into: &mut [u8])
    requires { at + length into.old ≤ 256 }
    ensures { into.new ≡ bytes_from zeros at (length into.old) }
{
    into.fill(0);
}

/// Writes bytes over those of a block from a place on.
pub fn overwrite(block: &mut [u8], at: usize, bytes: &[u8])
    requires { at + length bytes.now ≤ length block.old }
    ensures { block.new ≡ overwritten block.old at bytes.now }
{
    block[at..at + bytes.len()].copy_from_slice(bytes);
}

/// Whether a block stands between two device addresses of an endpoint.
pub fn is_between(ep: u32, number: u64, of: u32, from: u64, to: u64) -> bool
    requires from { from % 256 ≡ 0 }
    requires to { to % 256 ≡ 0 }
    ensures { result ≡ is_between of from to (ep, number) }
{
    ep == of && from / 256 <= number && number < to / 256
}
