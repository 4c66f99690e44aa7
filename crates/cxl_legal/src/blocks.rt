//! What the committed decoders of a block leave to a new region.

ghost use Rattle.std.specs.Prelude.{◌≡◌, ℕ, ◌+◌, ◌-◌, ◌≤◌, ◌==◌, if◌then◌else◌, slice_get};
ghost use Rattle.std.specs.Option.{option_map_or};
ghost use Rattle.cxl_enc.specs.Limits.{address_limit};
ghost use Rattle.cxl_regs.specs.Reading.{committed_count};
ghost use Rattle.cxl_span.specs.Allotting.{all_committed};
ghost use Rattle.cxl_span.specs.Breaches.{BlockKeeps};

use cxl_regs::Block;
use cxl_span::{committed_stand_first, ranges_rise};

/// Whether every decoder of a block is committed.
pub fn is_full(block: &Block) -> bool
    ensures { result ≡ all_committed block.now.decoders }
{
    block.committed() == block.count()
}

/// The end of the range of a block's last committed decoder, an address, or 0 where none is committed. A new range
/// starts there or above. The block keeps the rules K2 to K8.
pub fn last_end(block: &Block) -> u64
    requires { (ram : ℕ) × (pmem : ℕ) × BlockKeeps block.now ram pmem }
    ensures value { result ≡ (if committed_count block.now.decoders == 0 then 0
        else option_map_or (λ d. d.base + d.size) (slice_get block.now.decoders (committed_count block.now.decoders - 1)) 0) }
    ensures low { result ≤ address_limit }
{
    committed_stand_first();
    ranges_rise();
    let committed = block.committed();
    if committed == 0 {
        return 0;
    }
    let last = block.decoder(committed - 1);
    last.base + last.size
}
