//! The first endpoint of a range, and what it says of that.

ghost use Rattle.std.specs.Prelude.{◌≡◌, ◌==◌, if◌then◌else◌};
ghost use Rattle.cxl_model.specs.Hosts.{as_system};
ghost use Rattle.cxl_cause.specs.inner.Firsts.{IsFirst};

use crate::lookups::{first_endpoint, index_for, span_kind};
use cxl_enc::MemKind;
use cxl_model::Host;
use cxl_regs::Range;

/// What the endpoint of a range with the least number says of the range.
#[derive(Clone, Copy)]
pub struct First {
    /// That endpoint, where there is one.
    pub node: Option<u32>,
    pub ways: u8,
    /// The granularity code in a window of one way.
    pub code: u8,
    pub kind: MemKind,
}

/// What the first endpoint of a range says of it; a range without an endpoint counts as one way of ram.
pub(crate) fn first_of(host: &Host, range: &Range) -> First
    ensures { IsFirst (as_system host.now) range.now result }
{
    let _count = host.topo.count();
    let _blocks = host.image.count();
    let node = first_endpoint(host, range);
    let none = First {
        node,
        ways: 1,
        code: 0,
        kind: MemKind::Ram,
    };
    let Some(first) = node else {
        return none;
    };
    let Some(i) = index_for(host.image, range, first) else {
        return none;
    };
    let d = host.image.block(first).decoder(i);
    let ways = d.interleave_ways();
    First {
        node,
        ways,
        code: own_code(ways, d.gran),
        kind: span_kind(host, first, i, &d),
    }
}

/// The code of a range in a window of one way, by the ways and the code of its first endpoint.
fn own_code(ways: u8, gran: u8) -> u8
    ensures { result ≡ (if ways == 1 then 0 else gran) }
{
    if ways == 1 { 0 } else { gran }
}
