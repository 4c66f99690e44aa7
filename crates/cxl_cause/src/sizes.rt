//! K6: why a size is none that a decoder can commit.

ghost use Rattle.std.specs.Prelude.{◌≡◌, ◌+◌, ◌*◌, ◌≤◌, ◌<◌};
ghost use Rattle.cxl_enc.specs.Limits.{address_limit};
ghost use Rattle.cxl_span.specs.Rules.{size_unit};
ghost use Rattle.cxl_cause.specs.BlockCauses.{size_below, size_above, size_cause};

use crate::cause::Cause;
use cxl_enc::{ADDRESS_LIMIT, UNIT};
use cxl_regs::{Block, Decoder};

/// The cause of K6.
pub(crate) fn size_cause(block: &Block, d: &Decoder) -> Option<Cause>
    ensures { result ≡ size_cause block.now d.now }
{
    if !d.committed {
        return None;
    }
    if d.size == 0 {
        return Some(Cause::NoBytes);
    }
    if u128::from(d.base) + u128::from(d.size) > u128::from(ADDRESS_LIMIT) {
        return Some(Cause::PastLimit {
            base: d.base,
            size: d.size,
        });
    }
    let unit = UNIT * u64::from(d.interleave_ways());
    if !block.endpoint() || d.size % unit == 0 {
        return None;
    }
    Some(uneven(d, unit))
}

/// That of a size with uneven shares, by the next legal sizes.
fn uneven(d: &Decoder, unit: u64) -> Cause
    requires unit { unit ≡ size_unit d.now }
    requires small { d.now.base + d.now.size ≤ address_limit }
    ensures { result ≡ Cause.Uneven d.now.size unit (size_below d.now) (size_above d.now) }
{
    let down = d.size - d.size % unit;
    let up = down + unit;
    Cause::Uneven {
        size: d.size,
        unit,
        below: if d.size < unit { None } else { Some(down) },
        above: if d.base + up <= ADDRESS_LIMIT {
            Some(up)
        } else {
            None
        },
    }
}
