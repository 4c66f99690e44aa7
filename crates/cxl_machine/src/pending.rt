//! Laws of the job that is pending at a machine, each the contract of a function that does nothing.

ghost use Rattle.std.specs.Prelude.{◌≡◌, ℕ, ◌+◌, ◌*◌, ◌<◌, ◌≤◌, List, length, map, take, Contains, Some, None};
ghost use Rattle.std.specs.FinMap as finmap;
ghost use Rattle.cxl_bus.specs.declared.sent.Sent.{Sent};
ghost use Rattle.cxl_bus.specs.Trail.{blocks_sent};
ghost use Rattle.cxl_script.specs.declared.command.Command.{Command};
ghost use Rattle.cxl_media.specs.MediaState.{MediaState};
ghost use Rattle.cxl_model.specs.declared.plan.Row.{Row};
ghost use Rattle.cxl_model.specs.Accepted.{KeepsBlocks};
ghost use Rattle.cxl_model.specs.Bytes.{LiesInSpan};
ghost use Rattle.cxl_model.specs.Contents.{AreMediaOf};
ghost use Rattle.cxl_model.specs.Changes.{HaveSameDecoders};
ghost use Rattle.cxl_model.specs.Regions.{region_range, IsRegionIn};
ghost use Rattle.cxl_model.specs.System.{IsSystem};
ghost use Rattle.cxl_apply.specs.Jobs.{AreTakenBack, blocks_done};
ghost use Rattle.cxl_reply.specs.declared.reply.Reply.{Reply};
ghost use Rattle.cxl_reply.specs.declared.reply.Reply.TheVariants as replies;
ghost use Rattle.cxl_machine.specs.Machine.{Live, RegionJob, Creates, Releases, Machine, live_at, live_named, region_window, image_of, present, holding_of, kept_regions};
ghost use Rattle.cxl_machine.specs.Accesses.{TellsHost};
ghost use Rattle.cxl_machine.specs.Jobs.{total_of, settled_by, finished, undone};
ghost use Rattle.cxl_machine.specs.Outcomes.{BusOutcome};
ghost use Rattle.cxl_machine.specs.Replies.{Answer};
ghost use Rattle.cxl_machine.specs.Answers.{Answers};
ghost use Rattle.cxl_machine.specs.Sound.{IsMachine, block_told};
ghost use Rattle.cxl_machine.specs.Trails.{TrailOf, IsOnTheWay};

use crate::keeping::{
    asked_creates_begin_as_machines, finished_jobs_keep_machines, releases_begin_as_machines,
};
use cxl_apply::{
    create_commits_its_rows, regions_stay_after_a_create, regions_stay_in_a_create,
    regions_stay_in_a_release, release_releases_its_rows, writes_are_taken_back,
};
use cxl_model::{
    bytes_are_carried_one_to_one, regions_share_no_byte, whole_ranges_have_one_region,
};

/// A law of jobs: each write of a machine's job is taken back by its back value, and behind the last one the blocks are
/// those of the image that the job settles.
pub fn pending_jobs_settle()
    ensures back { (m : Machine) (job : RegionJob) → IsMachine m → m.job ≡ Some job
        → AreTakenBack m.settled.blocks job.writes }
    ensures ends { (m : Machine) (job : RegionJob) → IsMachine m → m.job ≡ Some job
        → blocks_done m.settled.blocks job.writes (total_of job) ≡ (settled_by job job.kind m.settled).blocks }
{
    writes_are_taken_back();
    create_commits_its_rows();
    release_releases_its_rows();
}

/// A law of machines: while a job is pending, the image that the registers hold is one of the same host that keeps K1 to K8,
/// and each live region is a region of it, in the same window, with the same spans and the same decoders.
pub fn live_regions_stay()
    ensures system { (m : Machine) → IsMachine m → IsSystem (present m) × KeepsBlocks (present m) }
    ensures region { (m : Machine) (region : Live) → IsMachine m → Contains m.live region
        → IsRegionIn m.settled (region_window m.settled region.found) region.found
        × IsRegionIn (present m) (region_window m.settled region.found) region.found
        × HaveSameDecoders m.settled (present m) (region_range region.found) }
{
    whole_ranges_have_one_region();
    regions_stay_in_a_create();
    regions_stay_in_a_release();
}

/// A law of trails: behind each word of a command but the last, registers hold the image of a machine with the command's job
/// pending and so many of its writes made; behind the last one, that of the machine that answers.
pub fn words_pass_by_machines()
    ensures between { (m : Machine) (command : Command) (outcome : BusOutcome) (answer : Answer) (trail : List Sent) (k : ℕ)
        → IsMachine m → Answers m command outcome answer → TrailOf m command outcome trail → k < length trail
        → IsOnTheWay m command (take k trail) }
    ensures left { (m : Machine) (command : Command) (outcome : BusOutcome) (answer : Answer) (trail : List Sent)
        → IsMachine m → Answers m command outcome answer → TrailOf m command outcome trail
        → blocks_sent (image_of m) trail ≡ image_of answer.machine }
{
    pending_jobs_settle();
    asked_creates_begin_as_machines();
    releases_begin_as_machines();
}

/// A law of machines: the region of a pending job, from the start of its release and until the last write of its create, is
/// not mapped: no live region has its name, one of its host bytes or one of its device bytes.
pub fn pending_regions_are_unmapped()
    ensures host { (m : Machine) (job : RegionJob) (h : ℕ) → IsMachine m → m.job ≡ Some job
        → job.region.found.base ≤ h → h < job.region.found.base + job.region.found.size → live_at m h ≡ None }
    ensures device { (m : Machine) (job : RegionJob) (endpoint dpa : ℕ) (reply : Reply) → IsMachine m
        → m.job ≡ Some job → LiesInSpan job.region.found endpoint dpa → TellsHost m endpoint dpa reply
        → reply ≡ replies.Unmapped }
    ensures name { (m : Machine) (job : RegionJob) → IsMachine m → m.job ≡ Some job
        → live_named m job.region.name ≡ None }
{
    regions_share_no_byte();
    bytes_are_carried_one_to_one();
    regions_stay_after_a_create();
}

/// A law of jobs: the region that a create makes holds no piece; a job that is undone leaves the settled image word for
/// word; and a release that is done leaves no block of the region's spans in media.
pub fn ended_jobs_leave_nothing()
    ensures made { (m : Machine) (job : RegionJob) (rows : List Row) → IsMachine m → m.job ≡ Some job
        → job.kind ≡ Creates rows → job.region.contents ≡ finmap.empty }
    ensures undone { (m : Machine) (job : RegionJob) → image_of (undone job m) ≡ m.settled.blocks }
    ensures released { (m : Machine) (job : RegionJob) (place : ℕ) (media : MediaState) (endpoint block : ℕ) → IsMachine m
        → m.job ≡ Some job → job.kind ≡ Releases place → LiesInSpan job.region.found endpoint (256 * block)
        → AreMediaOf (map (holding_of (finished job m).settled) (kept_regions (finished job m))) (block_told media)
        → block_told media endpoint block ≡ None }
{
    regions_share_no_byte();
    bytes_are_carried_one_to_one();
    regions_stay_after_a_create();
    finished_jobs_keep_machines();
}
