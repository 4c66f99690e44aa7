//! A region beside its weave.

ghost use Rattle.std.specs.Prelude.{◌≡◌};
ghost use Rattle.cxl_num.specs.Interleave.{chunk_size};
ghost use Rattle.cxl_deal.specs.Weaves.{IsWeave};
ghost use Rattle.cxl_model.specs.System.{System, IsSystem};
ghost use Rattle.cxl_model.specs.Regions.{IsRegionIn, weave_fields};
ghost use Rattle.cxl_range.specs.inner.Woven.{IsWoven};

use cxl_deal::Weave;
use cxl_enc::chunk_size;
use cxl_model::{
    Found, regions_lie_in_windows, slots_are_endpoints, weave_of, weaves_fill_their_regions,
};
use cxl_window::Window;

/// The weave of a region, and what it needs of the region.
pub(crate) fn region_weave(found: &Found, window: &Window) -> Weave
    requires { (s : System) × IsSystem s × IsRegionIn s window.now found.now }
    ensures value { result ≡ weave_fields found.now window.now }
    ensures woven { IsWoven found.now result }
{
    weaves_fill_their_regions();
    regions_lie_in_windows();
    slots_are_endpoints();
    weave_of(found, window)
}

/// The bytes of a weave's chunk.
pub(crate) fn chunk_bytes(weave: &Weave) -> u64
    ensures value { result ≡ chunk_size weave.now.gran }
    ensures weave { IsWeave weave.now }
{
    // A weave has a legal granularity code.
    let _base = weave.base();
    u64::from(chunk_size(weave.gran()))
}
