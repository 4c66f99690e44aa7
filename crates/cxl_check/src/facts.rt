//! What the first endpoint of a range says of it.

ghost use Rattle.std.specs.Prelude.{◌≡◌, ◌==◌, if◌then◌else◌};
ghost use Rattle.cxl_model.specs.Hosts.{as_system};
ghost use Rattle.cxl_model.specs.Accepted.{IsOrderlySystem};
ghost use Rattle.cxl_check.specs.inner.Facts.{AreFacts, AreSystemTables};

use crate::decoder_facts::facts_at;
use crate::decoders::index_for;
use crate::firsts::first_of;
use crate::tables::Tables;
use cxl_enc::MemKind;
use cxl_model::Host;
use cxl_regs::Range;

/// What the first endpoint of a range says of it: ways, the code in a window of one way, and the kind of memory.
#[derive(Clone, Copy)]
pub struct RangeFacts {
    pub ways: u8,
    pub code: u8,
    pub kind: MemKind,
}

/// What the first endpoint of a range says of it; one without an endpoint counts as one way of ram.
pub(crate) fn facts_of(host: &Host, tables: &Tables, range: &Range) -> RangeFacts
    requires ready { IsOrderlySystem (as_system host.now) }
    requires tables { AreSystemTables (as_system host.now) tables.now }
    ensures { AreFacts (as_system host.now) range.now result }
{
    let none = RangeFacts {
        ways: 1,
        code: 0,
        kind: MemKind::Ram,
    };
    let Some(first) = first_of(&tables.firsts, range) else {
        return none;
    };
    let Some(i) = index_for(host, range, first, 0) else {
        return none;
    };
    let d = host.image.block(first).decoder(i);
    let ways = d.interleave_ways();
    let own = facts_at(host, &tables.decoders, first, i, &d);
    RangeFacts {
        ways,
        code: own_code(ways, d.gran),
        kind: own.kind,
    }
}

/// The code of a range in a window of one way, by the ways and the code of its first endpoint.
fn own_code(ways: u8, gran: u8) -> u8
    ensures { result ≡ (if ways == 1 then 0 else gran) }
{
    if ways == 1 { 0 } else { gran }
}
