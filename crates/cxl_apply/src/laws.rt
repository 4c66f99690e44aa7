//! Laws of the writes of jobs, each the contract of a function that does nothing.

ghost use Rattle.std.specs.Prelude.{◌≡◌, ◌≢◌, ◌⊎◌, ℕ, ◌<◌, ◌≤◌, true, None, List, length, All};
ghost use Rattle.cxl_regs.specs.Registers.{Registers, IsBlock};
ghost use Rattle.cxl_window.specs.Fields.{WindowFields};
ghost use Rattle.cxl_model.specs.declared.plan.Row.{Row};
ghost use Rattle.cxl_model.specs.declared.plan.Plan.{Plan};
ghost use Rattle.cxl_model.specs.declared.found.Found.{Found};
ghost use Rattle.cxl_model.specs.declared.request.Request.{Request};
ghost use Rattle.cxl_model.specs.System.{System, IsSystem};
ghost use Rattle.cxl_model.specs.Accepted.{KeepsBlocks, IsAccepted};
ghost use Rattle.cxl_regs.specs.declared.reading.Range.{Range};
ghost use Rattle.cxl_model.specs.Ranges.{IsCommittedRange};
ghost use Rattle.cxl_model.specs.Regions.{region_range, IsRegionIn};
ghost use Rattle.cxl_model.specs.Changes.{HaveSameDecoders};
ghost use Rattle.cxl_model.specs.Plans.{IsLegalPlan, with_rows};
ghost use Rattle.cxl_apply.specs.declared.write.Write.{Write};
ghost use Rattle.cxl_apply.specs.Jobs.{AreCreateWrites, AreReleaseWrites, AreTakenBack, AreOfDifferentNodes, CanCreate, CanRelease, job_limit, blocks_after_writes, system_done};
ghost use Rattle.cxl_apply.specs.Releases.{rows_of, first_locked, first_not_last, blocks_without, system_without};

use cxl_model::{
    accepted_where_whole, endpoints_lie_evenly, regions_lie_in_windows, regions_stay,
    weaves_fill_their_regions,
};
use cxl_regs::{words_stand_for_decoder, write_laws};
use cxl_span::committed_stand_first;
use cxl_topo::tree_laws;

/// A law of jobs: each write is taken back by its back value.
pub fn writes_are_taken_back()
    ensures create { (blocks : List Registers) (rows : List Row) (writes : List Write) → All IsBlock blocks
        → All (CanCreate blocks) rows → AreCreateWrites blocks rows writes
        → AreTakenBack blocks writes }
    ensures release { (blocks : List Registers) (rows : List Row) (writes : List Write) → All IsBlock blocks
        → All (CanRelease blocks) rows → AreReleaseWrites rows writes
        → AreTakenBack blocks writes }
{
    words_stand_for_decoder();
}

/// A law of jobs: over an accepted image with every block enabled, all writes of a legal plan's create leave the
/// image with its rows committed.
pub fn create_commits_its_rows()
    ensures rows { (s : System) (request : Request) (plan : Plan) → IsAccepted s → IsLegalPlan s request plan
        → All (CanCreate s.blocks) plan.rows }
    ensures apart { (s : System) (request : Request) (plan : Plan) → IsLegalPlan s request plan
        → AreOfDifferentNodes plan.rows }
    ensures committed { (s : System) (request : Request) (plan : Plan) (writes : List Write) → IsSystem s
        → IsAccepted s → All (λ (block : Registers). block.enabled ≡ true) s.blocks
        → IsLegalPlan s request plan → AreCreateWrites s.blocks plan.rows writes
        → blocks_after_writes s.blocks writes ≡ (with_rows s plan.rows).blocks }
    ensures some { (s : System) (request : Request) (plan : Plan) → IsLegalPlan s request plan
        → 0 < length plan.rows }
{
    words_stand_for_decoder();
    committed_stand_first();
}

/// A law of jobs: all writes of a release of a region's decoders, of which none is locked and none below another
/// that is committed, leave the image with them released.
pub fn release_releases_its_rows()
    ensures rows { (s : System) (found : Found) → KeepsBlocks s → first_locked s found ≡ None
        → first_not_last s found ≡ None → All (CanRelease s.blocks) (rows_of s found) }
    ensures apart { (s : System) (found : Found) → AreOfDifferentNodes (rows_of s found) }
    ensures released { (s : System) (found : Found) (writes : List Write) → IsSystem s → KeepsBlocks s
        → first_locked s found ≡ None → first_not_last s found ≡ None
        → AreReleaseWrites (rows_of s found) writes
        → blocks_after_writes s.blocks writes ≡ blocks_without s found }
    ensures some { (s : System) (found : Found) → IsSystem s → IsCommittedRange s (region_range found)
        → 0 < length (rows_of s found) }
{
    words_stand_for_decoder();
}

/// A law of jobs: between two writes of a legal plan's create the image is one of the same host in which every block
/// decodes, the rules K1 to K8 hold, and every region of the image stays one, with its decoders, whatever is done of the
/// job's own.
pub fn regions_stay_in_a_create()
    ensures system { (s : System) (request : Request) (plan : Plan) (writes : List Write) (n : ℕ) → IsSystem s
        → IsAccepted s → IsLegalPlan s request plan → AreCreateWrites s.blocks plan.rows writes
        → IsSystem (system_done s writes n) }
    ensures enabled { (s : System) (request : Request) (plan : Plan) (writes : List Write) (n : ℕ) → IsSystem s
        → IsAccepted s → All (λ (block : Registers). block.enabled ≡ true) s.blocks
        → IsLegalPlan s request plan → AreCreateWrites s.blocks plan.rows writes
        → All (λ (block : Registers). block.enabled ≡ true) (system_done s writes n).blocks }
    ensures keeps { (s : System) (request : Request) (plan : Plan) (writes : List Write) (n : ℕ) → IsSystem s
        → IsAccepted s → All (λ (block : Registers). block.enabled ≡ true) s.blocks
        → IsLegalPlan s request plan → AreCreateWrites s.blocks plan.rows writes
        → KeepsBlocks (system_done s writes n) }
    ensures decoders { (s : System) (request : Request) (plan : Plan) (writes : List Write) (n : ℕ) (w : WindowFields)
        (found : Found) → IsSystem s
        → IsAccepted s → All (λ (block : Registers). block.enabled ≡ true) s.blocks
        → IsLegalPlan s request plan → AreCreateWrites s.blocks plan.rows writes → IsRegionIn s w found
        → HaveSameDecoders s (system_done s writes n) (region_range found) }
    ensures region { (s : System) (request : Request) (plan : Plan) (writes : List Write) (n : ℕ) (w : WindowFields)
        (found : Found) → IsSystem s
        → IsAccepted s → All (λ (block : Registers). block.enabled ≡ true) s.blocks
        → IsLegalPlan s request plan → AreCreateWrites s.blocks plan.rows writes → IsRegionIn s w found
        → IsRegionIn (system_done s writes n) w found }
{
    write_laws();
    words_stand_for_decoder();
    committed_stand_first();
    regions_stay();
}

/// A law of jobs: between two writes of a region's release the image is one of the same host in which every block
/// decodes that did, the rules K1 to K8 hold, and every other region of the image stays one, with its decoders.
pub fn regions_stay_in_a_release()
    ensures system { (s : System) (found : Found) (writes : List Write) (n : ℕ) → IsSystem s
        → AreReleaseWrites (rows_of s found) writes → IsSystem (system_done s writes n) }
    ensures enabled { (s : System) (found : Found) (writes : List Write) (n : ℕ) → IsSystem s → KeepsBlocks s
        → first_locked s found ≡ None → first_not_last s found ≡ None
        → All (λ (block : Registers). block.enabled ≡ true) s.blocks → AreReleaseWrites (rows_of s found) writes
        → All (λ (block : Registers). block.enabled ≡ true) (system_done s writes n).blocks }
    ensures keeps { (s : System) (found : Found) (writes : List Write) (n : ℕ) → IsSystem s → KeepsBlocks s
        → first_locked s found ≡ None → first_not_last s found ≡ None
        → AreReleaseWrites (rows_of s found) writes → KeepsBlocks (system_done s writes n) }
    ensures decoders { (s : System) (found : Found) (writes : List Write) (n : ℕ) (r : Range) → IsSystem s
        → KeepsBlocks s → first_locked s found ≡ None → first_not_last s found ≡ None
        → AreReleaseWrites (rows_of s found) writes → r ≢ region_range found
        → HaveSameDecoders s (system_done s writes n) r }
    ensures region { (s : System) (found : Found) (writes : List Write) (n : ℕ) (w : WindowFields) (other : Found)
        → IsSystem s → KeepsBlocks s → first_locked s found ≡ None → first_not_last s found ≡ None
        → AreReleaseWrites (rows_of s found) writes → region_range other ≢ region_range found
        → IsRegionIn s w other → IsRegionIn (system_done s writes n) w other }
{
    write_laws();
    words_stand_for_decoder();
    regions_stay();
}

/// A law of jobs: one has few writes, whether it makes a legal plan's region or ends one of an image.
pub fn jobs_have_few_writes()
    ensures create { (s : System) (request : Request) (plan : Plan) (writes : List Write) → IsSystem s
        → IsLegalPlan s request plan → AreCreateWrites s.blocks plan.rows writes → length writes ≤ job_limit }
    ensures release { (s : System) (w : WindowFields) (found : Found) (writes : List Write) → IsSystem s
        → IsRegionIn s w found → AreReleaseWrites (rows_of s found) writes → length writes ≤ job_limit }
{
    tree_laws();
    endpoints_lie_evenly();
    weaves_fill_their_regions();
    regions_lie_in_windows();
}

/// A law of images: one that is accepted is accepted again with a region's decoders released, where none of them is
/// locked and none below another that is committed. What decoded then still does.
pub fn released_image_is_accepted()
    ensures accepted { (s : System) (found : Found) → IsSystem s → IsAccepted s → first_locked s found ≡ None
        → first_not_last s found ≡ None → IsAccepted (system_without s found) }
    ensures enabled { (s : System) (found : Found) → All (λ (block : Registers). block.enabled ≡ true) s.blocks
        → All (λ (block : Registers). block.enabled ≡ true) (blocks_without s found) }
{
    words_stand_for_decoder();
    accepted_where_whole();
    regions_stay();
}

/// A law of images: one with a legal plan's rows committed is an image of the same host, in which every block decodes
/// that did. Every region of before is one, and each committed range is the plan's or one of before.
pub fn regions_stay_after_a_create()
    ensures system { (s : System) (request : Request) (plan : Plan) → IsSystem s → IsLegalPlan s request plan
        → IsSystem (with_rows s plan.rows) }
    ensures enabled { (s : System) (rows : List Row) → All (λ (block : Registers). block.enabled ≡ true) s.blocks
        → All (λ (block : Registers). block.enabled ≡ true) (with_rows s rows).blocks }
    ensures region { (s : System) (request : Request) (plan : Plan) (w : WindowFields) (found : Found) → IsSystem s
        → IsAccepted s → All (λ (block : Registers). block.enabled ≡ true) s.blocks
        → IsLegalPlan s request plan → IsRegionIn s w found → IsRegionIn (with_rows s plan.rows) w found }
    ensures ranges { (s : System) (request : Request) (plan : Plan) (r : Range) → IsSystem s → IsAccepted s
        → All (λ (block : Registers). block.enabled ≡ true) s.blocks → IsLegalPlan s request plan
        → IsCommittedRange (with_rows s plan.rows) r
        → (r ≡ region_range plan.found) ⊎ IsCommittedRange s r }
{
    words_stand_for_decoder();
    committed_stand_first();
    regions_stay();
}

/// A law of images: one with a region's decoders released, of which none is locked and none below another that is
/// committed, is an image of the same host. Every other region of before is one, and each committed range is one of
/// before and another than the region's.
pub fn regions_stay_after_a_release()
    ensures system { (s : System) (found : Found) → IsSystem s → IsSystem (system_without s found) }
    ensures region { (s : System) (found : Found) (w : WindowFields) (other : Found) → IsSystem s → KeepsBlocks s
        → first_locked s found ≡ None → first_not_last s found ≡ None
        → region_range other ≢ region_range found → IsRegionIn s w other
        → IsRegionIn (system_without s found) w other }
    ensures ranges { (s : System) (found : Found) (r : Range) → IsSystem s → KeepsBlocks s
        → first_locked s found ≡ None → first_not_last s found ≡ None
        → IsCommittedRange (system_without s found) r
        → (r ≢ region_range found) × IsCommittedRange s r }
{
    words_stand_for_decoder();
    regions_stay();
}
