//! What leads from a machine that a session can stand for to one, each the contract of a function that does nothing.

ghost use Rattle.std.specs.Prelude.{◌≡◌, ◌≢◌, ◌⊎◌, ℕ, ◌<◌, ◌≤◌, true, List, length, All, Some, None, Ok, Err};
ghost use Rattle.cxl_enc.specs.Limits.{frame_limit};
ghost use Rattle.cxl_script.specs.declared.command.Command.{Command};
ghost use Rattle.cxl_script.specs.declared.command.Command.TheVariants as commands;
ghost use Rattle.cxl_script.specs.declared.command.Create.{Create};
ghost use Rattle.cxl_model.specs.declared.plan.Plan.{Plan};
ghost use Rattle.cxl_model.specs.declared.request.Request.{Request};
ghost use Rattle.cxl_model.specs.Plans.{IsLegalPlan};
ghost use Rattle.cxl_model.specs.System.{System, IsSystem};
ghost use Rattle.cxl_reply.specs.declared.reply.Reply.{Reply};
ghost use Rattle.cxl_legal.specs.Used.{HasBytePorts};
ghost use Rattle.cxl_script.specs.Grammar.{StatesGranCode};
ghost use Rattle.cxl_request.specs.Plans.{HasNoPlanOver, TellsNoPick, IsPlanFor};
ghost use Rattle.cxl_request.specs.Requests.{request_by_name, want_of};
ghost use Rattle.cxl_machine.specs.Machine.{Live, RegionJob, Machine, HasSameHost};
ghost use Rattle.cxl_model.specs.Listed.{region_limit};
ghost use Rattle.cxl_machine.specs.Jobs.{create_job, begun, finished, undone};
ghost use Rattle.cxl_machine.specs.Outcomes.{BusOutcome, is_access, StoresBytes};
ghost use Rattle.cxl_machine.specs.Requests.{AsksCreate, asked_release, refusal_of_create};
ghost use Rattle.cxl_machine.specs.Replies.{Answer};
ghost use Rattle.cxl_machine.specs.Answers.{Answers};
ghost use Rattle.cxl_machine.specs.Creating.{CreatesLegally, IsRefusedPlan};
ghost use Rattle.cxl_machine.specs.Sound.{IsMachine, Opens};

use cxl_apply::{
    create_commits_its_rows, regions_stay_after_a_create, regions_stay_after_a_release,
    release_releases_its_rows, released_image_is_accepted,
};
use cxl_model::{
    accepted_where_whole, hosts_with_caps_are_systems, regions_stay, weaves_fill_their_regions,
    whole_ranges_have_one_region,
};
use cxl_request::answers_hold_of_lines;

/// A law of machines: an accepted host opens as one that a session can stand for.
pub fn openings_are_machines()
    ensures { (start : System) (frames : ℕ) (m : Machine) → IsSystem start → HasBytePorts start.nodes
        → 1 ≤ frames → frames ≤ frame_limit → Opens start frames m → IsMachine m }
{
    hosts_with_caps_are_systems();
    accepted_where_whole();
    regions_stay();
}

/// A law of machines: from one that a session can stand for, a command that makes and ends no region leads to one.
pub fn accesses_keep_machines()
    ensures { (m : Machine) (command : Command) (outcome : BusOutcome) (answer : Answer) → IsMachine m
        → is_access command ≡ true → StoresBytes command → Answers m command outcome answer
        → IsMachine answer.machine }
{
    weaves_fill_their_regions();
}

/// A law of machines: from one that a session can stand for, steps and an abort behind which a job is pending lead to one.
pub fn steps_keep_machines()
    ensures step { (m : Machine) (steps : ℕ) (outcome : BusOutcome) (answer : Answer) (job : RegionJob) → IsMachine m
        → Answers m (commands.Step steps) outcome answer → answer.machine.job ≡ Some job
        → IsMachine answer.machine }
    ensures abort { (m : Machine) (outcome : BusOutcome) (answer : Answer) (job : RegionJob) → IsMachine m
        → Answers m commands.Abort outcome answer → answer.machine.job ≡ Some job
        → IsMachine answer.machine }
{}

/// A law of machines: one that a session can stand for stays one where its job is undone. A create goes; the region of a
/// release is live again, at its place.
pub fn undone_jobs_keep_machines()
    ensures { (m : Machine) (job : RegionJob) → IsMachine m → m.job ≡ Some job → IsMachine (undone job m) }
{}

/// A law of machines: one that a session can stand for stays one where its job has made its last write. A create's region
/// is then live, and a release's gone.
pub fn finished_jobs_keep_machines()
    ensures { (m : Machine) (job : RegionJob) → IsMachine m → m.job ≡ Some job → IsMachine (finished job m) }
{
    whole_ranges_have_one_region();
    released_image_is_accepted();
    regions_stay_after_a_create();
    regions_stay_after_a_release();
}

/// A law of machines: one that a session can stand for stays one where a release begins that a line asks for. No job was
/// pending, and no write of the release is made.
pub fn releases_begin_as_machines()
    ensures machine { (m : Machine) (name : List ℕ) (job : RegionJob) → IsMachine m → asked_release m name ≡ Ok job
        → IsMachine (begun job m) }
    ensures idle { (m : Machine) (name : List ℕ) (job : RegionJob) → asked_release m name ≡ Ok job → m.job ≡ None }
    ensures fresh { (m : Machine) (name : List ℕ) (job : RegionJob) → asked_release m name ≡ Ok job → job.done ≡ 0 }
{
    release_releases_its_rows();
}

/// A law of machines: one that a session can stand for, with no job and with room for a region more, stays one where the
/// create of a legal plan begins under a name that no live region has.
pub fn creates_begin_as_machines()
    ensures { (m : Machine) (request : Request) (plan : Plan) → IsMachine m → m.job ≡ None
        → IsLegalPlan m.settled request plan → All (λ (region : Live). region.name ≢ plan.name) m.live
        → length m.live < region_limit → IsMachine (begun (create_job m.settled plan) m) }
{
    create_commits_its_rows();
}

/// A law of machines: each job that a create asks for of one that a session can stand for is that of a legal plan.
pub fn creates_are_legal()
    ensures { (m : Machine) (command : Command) → IsMachine m → CreatesLegally m command }
{
    answers_hold_of_lines();
}

/// A law of machines: each job that a create asks for is that of the first and least plan of its line. Where the line
/// states ways, that stands in the first window in which any set of so many endpoints has a legal plan.
pub fn asked_creates_have_their_plans()
    ensures { (m : Machine) (create : Create) (job : RegionJob) → IsMachine m
        → (create.ways ≡ None) ⊎ StatesGranCode create → AsksCreate m create (Ok job)
        → (plan : Plan) × IsPlanFor m.settled create plan × (job ≡ create_job m.settled plan) }
{
    answers_hold_of_lines();
}

/// A law of machines: where nothing stands against a create before a plan is sought, one that names its endpoints is
/// refused with the first fault of its request, and no plan for that is legal; one that states ways is refused since no
/// region has so many, or none of so many has the size, or no set of so many endpoints has a legal plan, and none has.
pub fn refused_creates_have_causes()
    ensures named { (m : Machine) (create : Create) (refusal : Reply) → IsMachine m
        → refusal_of_create m create ≡ None → create.ways ≡ None → AsksCreate m create (Err refusal)
        → IsRefusedPlan m (request_by_name m.settled.nodes create) refusal }
    ensures picked { (m : Machine) (create : Create) (ways : ℕ) (refusal : Reply) → IsMachine m
        → refusal_of_create m create ≡ None → create.ways ≡ Some ways → StatesGranCode create
        → AsksCreate m create (Err refusal)
        → HasNoPlanOver m.settled create ways × TellsNoPick (want_of create ways) refusal }
{
    answers_hold_of_lines();
}

/// A law of machines: one that a session can stand for stays one where a create begins that a line asks for. No job was
/// pending, and no write of the create is made.
pub fn asked_creates_begin_as_machines()
    ensures machine { (m : Machine) (create : Create) (job : RegionJob) → IsMachine m → AsksCreate m create (Ok job)
        → IsMachine (begun job m) }
    ensures idle { (m : Machine) (create : Create) (job : RegionJob) → AsksCreate m create (Ok job) → m.job ≡ None }
    ensures fresh { (m : Machine) (create : Create) (job : RegionJob) → IsMachine m → AsksCreate m create (Ok job)
        → job.done ≡ 0 }
{
    creates_are_legal();
    creates_begin_as_machines();
}

/// A law of machines: from one that a session can stand for, each command leads to one, however the bus let it go; and it
/// never changes the host or the number of frames.
pub fn commands_keep_machines()
    ensures machine { (m : Machine) (command : Command) (outcome : BusOutcome) (answer : Answer) → IsMachine m
        → StoresBytes command → Answers m command outcome answer → IsMachine answer.machine }
    ensures host { (m : Machine) (command : Command) (outcome : BusOutcome) (answer : Answer)
        → Answers m command outcome answer → HasSameHost m answer.machine }
{
    accesses_keep_machines();
    undone_jobs_keep_machines();
    finished_jobs_keep_machines();
    releases_begin_as_machines();
    asked_creates_begin_as_machines();
}
