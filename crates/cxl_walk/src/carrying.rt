//! That an image carries the regions that it has.

ghost use Rattle.std.specs.Prelude.{List, All};
ghost use Rattle.cxl_model.specs.declared.found.Found.{Found};
ghost use Rattle.cxl_model.specs.System.{System, IsSystem};
ghost use Rattle.cxl_model.specs.Regions.{IsRegion};
ghost use Rattle.cxl_walk.specs.Carrying.{CarriesRegions};

use cxl_model::{
    bytes_are_carried_one_to_one, carries_where_chain_ends, chains_to_spans_are_of_regions,
    regions_share_no_byte,
};

/// A law of images: one carries whatever regions it has, accepted or between two writes of a job.
pub fn images_carry_their_regions()
    ensures { (s : System) (regions : List Found) → IsSystem s → All (IsRegion s) regions
        → CarriesRegions s regions }
{
    bytes_are_carried_one_to_one();
    carries_where_chain_ends();
    chains_to_spans_are_of_regions();
    regions_share_no_byte();
}
