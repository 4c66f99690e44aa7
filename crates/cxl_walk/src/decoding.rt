//! Which decoder of a block holds an address.

ghost use Rattle.std.specs.Prelude.{◌≡◌, ℕ, true, false, Some, slice_get, IfSome, IfNone, IsSomeAnd};
ghost use Rattle.cxl_regs.specs.declared.decoder.Decoder.{Decoder};
ghost use Rattle.cxl_regs.specs.Reading.{holds_address};

use cxl_regs::Block;

/// The number of the committed decoder that holds the address.
pub(crate) fn holder(block: &Block, h: u64) -> Option<u8>
    ensures some { IfSome result
        (λ i. IsSomeAnd (slice_get block.now.decoders i) (λ d. holds_address d h ≡ true)) }
    ensures none { IfNone result ((i : ℕ) (d : Decoder) → slice_get block.now.decoders i ≡ Some d
        → holds_address d h ≡ false) }
{
    for i in 0..block.count() {
        if block.decoder(i).holds_address(h) {
            return Some(i);
        }
    }
    None
}
