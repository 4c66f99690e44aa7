//! What the terms of a region have to keep by themselves: its ways, its size, its granularity.

ghost use Rattle.std.specs.Prelude.{◌≡◌, true, false, IsTrue, ◌↔◌};
ghost use Rattle.std.specs.Option.{option_map_or};
ghost use Rattle.cxl_enc.specs.Codes.{is_ways, code_in_table};
ghost use Rattle.cxl_regs.specs.Rules.{endpoint_ways_ok};
ghost use Rattle.cxl_legal.specs.Sizes.{IsSizeFor};
ghost use Rattle.cxl_legal.specs.Windows.{agrees_on_gran};

use cxl_enc::{ADDRESS_LIMIT, CAP_WAYS3, CAP_WAYS16, UNIT, code_of, has_bit};
use cxl_window::Window;

/// Whether a region can have so many ways: 1, 2, 3, 4, 6, 8, 12 or 16.
pub fn is_ways(ways: usize) -> bool
    ensures { result ≡ is_ways ways }
{
    ways <= 16 && code_of(ways as u8).is_some()
}

/// Whether a region of so many ways can have this size in bytes: some bytes, a multiple of 256 MiB for each way, and no
/// more than 2^52. (This project's rule.)
pub fn is_size(size: u64, ways: u8) -> bool
    requires { is_ways ways ≡ true }
    ensures { IsTrue result ↔ IsSizeFor size ways }
{
    let whole = UNIT * u64::from(ways);
    size > 0 && size % whole == 0 && size <= ADDRESS_LIMIT
}

/// Whether an endpoint with this capability word can have so many ways. (CXL HDM decoder capability.)
pub fn can_have_ways(cap: u32, ways: u8) -> bool
    requires { is_ways ways ≡ true }
    ensures { result ≡ option_map_or (endpoint_ways_ok cap) (code_in_table ways) false }
{
    match ways {
        3 | 6 | 12 => has_bit(cap, CAP_WAYS3),
        16 => has_bit(cap, CAP_WAYS16),
        _ => true,
    }
}

/// Whether a stated granularity code is that of a window of more than one way.
pub fn agrees_on_gran(gran: Option<u8>, window: &Window) -> bool
    ensures { result ≡ agrees_on_gran gran window.now }
{
    if window.ways() <= 1 {
        return true;
    }
    match gran {
        Some(code) => code == window.gran(),
        None => true,
    }
}
