//! What the restrictions of a window say of regions: which kinds of memory it permits, and whether it is fixed.

ghost use Rattle.std.specs.Prelude.{◌≡◌};
ghost use Rattle.cxl_enc.specs.Bits.{window_fixed};
ghost use Rattle.cxl_enc.specs.Caps.{has_bit};
ghost use Rattle.cxl_window.specs.Restrictions.{permits};

use crate::window::Window;
use cxl_enc::{MemKind, WINDOW_FIXED, WINDOW_HOST_ONLY, WINDOW_PMEM, WINDOW_RAM, has_bit};

/// Whether the restrictions of a window permit this kind of memory: bit 1 (host-only coherent) and that of the kind, bit 2
/// for ram and 3 for pmem. (CEDT CFMWS window restrictions.)
pub fn permits(window: &Window, kind: MemKind) -> bool
    ensures { result ≡ permits window.now kind }
{
    let restrict = u32::from(window.restrict());
    match kind {
        MemKind::Ram => has_bit(restrict, WINDOW_HOST_ONLY) && has_bit(restrict, WINDOW_RAM),
        MemKind::Pmem => has_bit(restrict, WINDOW_HOST_ONLY) && has_bit(restrict, WINDOW_PMEM),
    }
}

/// Whether the configuration of a window is fixed, so that no new region may lie in it: bit 4 of its restrictions. (CEDT
/// CFMWS window restrictions.)
pub fn is_fixed(window: &Window) -> bool
    ensures { result ≡ has_bit window.now.restrict window_fixed }
{
    has_bit(u32::from(window.restrict()), WINDOW_FIXED)
}
