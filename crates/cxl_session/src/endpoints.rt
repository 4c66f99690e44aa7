//! The endpoints of a region's slots.

ghost use Rattle.std.specs.Prelude.{◌≡◌, IfOk};
ghost use Rattle.cxl_machine.specs.Accesses.{endpoints_by_slot};

use cxl_enc::{FixedList, Memory};
use cxl_model::Found;
use std::alloc::Global;

/// The endpoint of each slot. Takes memory.
pub(crate) fn endpoints_by_slot(alloc: Global, found: &Found) -> Result<FixedList<u32>, Memory>
    ensures { IfOk result (λ endpoints. endpoints ≡ endpoints_by_slot found.now) }
{
    let spans = found.spans.items();
    let endpoints = spans.iter().map(|place| place.endpoint).collect(alloc)?;
    Ok(FixedList::new(endpoints))
}
