//! Regions that are made and ended: a job goes on, ends, or is undone.

ghost use Rattle.std.specs.Prelude.{◌≡◌, ℕ, ◌<◌, ◌≤◌, true, length, insert, [], ◌∷◌, ◌++◌, Some, None, option_map, IfSome, IfOk, OnOk, OnErr};
ghost use Rattle.cxl_bus.specs.Failed.{HasFailed};
ghost use Rattle.cxl_bus.specs.RegsState.{RegsState};
ghost use Rattle.cxl_media.specs.MediaState.{MediaState};
ghost use Rattle.cxl_script.specs.declared.command.Command.TheVariants as commands;
ghost use Rattle.cxl_apply.specs.Steps.{HasWordsOf};
ghost use Rattle.cxl_apply.specs.WordsSent.{words_made, words_taken_back};
ghost use Rattle.cxl_model.specs.System.{System, IsSystem};
ghost use Rattle.cxl_model.specs.Regions.{IsRegion};
ghost use Rattle.cxl_machine.specs.Machine.{RegionJob, Machine};
ghost use Rattle.cxl_model.specs.Listed.{region_limit};
ghost use Rattle.cxl_machine.specs.Jobs.{begun};
ghost use Rattle.cxl_machine.specs.Replies.{is_refusal};
ghost use Rattle.cxl_session.specs.Inside.{place_in, job_fields};
ghost use Rattle.cxl_session.specs.Standing.{IsAt, Stands};
ghost use Rattle.cxl_session.specs.Outright.{OwesRefusal};
ghost use Rattle.cxl_session.specs.inner.Answering.{IsTurnFor};
ghost use Rattle.cxl_session.specs.inner.Regions.{session_undone, session_finished, named_region, finished_reply, BeginsRelease, IsTakenBackTo, IsMadeTo, IsLeftByEnd, IsWholeFor, LeavesUndone};

use crate::pending::{Kind, PendingJob};
use crate::session::Session;
use cxl_apply::{
    Job, regions_stay_in_a_create, regions_stay_in_a_release, release_releases_its_rows,
};
use cxl_bus::Regs;
use cxl_enc::{Failed, Memory, Name};
use cxl_machine::{
    finished_jobs_keep_machines, jobs_have_one_list_of_writes, pending_jobs_settle,
    releases_begin_as_machines,
};
use cxl_media::Media;
use cxl_model::{Found, whole_ranges_have_one_region};
use cxl_move::{blocks_are_pieces, cleared_regions_leave_media, scrub_region};
use cxl_reply::{Begun, Named, Pending, Progress, Reply};
use cxl_walk::{Kept, kept_routes_stay};
use std::alloc::Global;

impl Session {
    /// Undoes the job that is pending. Where the bus fails it stays pending.
    pub(crate) fn abort<R: Regs>(&mut self, regs: &mut R) -> Reply
        requires { (media : MediaState) × Stands self.old (R.state regs.old) media }
        ensures turn { (media : MediaState)
            → IsTurnFor self.old self.new (R.state regs.old) (R.state regs.new) media media commands.Abort result }
        ensures refused { is_refusal result ≡ true → (self.new ≡ self.old)
            × ((R.state regs.new).blocks ≡ (R.state regs.old).blocks) }
        ensures host { (self.new.topo ≡ self.old.topo) × (self.new.windows ≡ self.old.windows) }
        ensures counts { (R.state regs.old).faults ≤ (R.state regs.new).faults }
    {
        pending_jobs_settle();
        let Some(mut pending) = self.take_job() else {
            return Reply::NothingPending;
        };
        if self.undo(&mut pending, regs).is_err() {
            return self.leave(pending);
        }
        let name = pending.name;
        self.restore(pending);
        Reply::Aborted(name)
    }

    /// Makes the next writes of the job that is pending: so many, or all that are left.
    pub(crate) fn step<R: Regs, M: Media>(
        &mut self,
        steps: u32,
        regs: &mut R,
        media: &mut M,
    ) -> Reply
        requires { Stands self.old (R.state regs.old) (M.state media.old) }
        ensures turn { IsTurnFor self.old self.new (R.state regs.old) (R.state regs.new) (M.state media.old) (M.state media.new)
            (commands.Step steps) result }
        ensures refused { is_refusal result ≡ true → (self.new ≡ self.old)
            × ((R.state regs.new).blocks ≡ (R.state regs.old).blocks) × (M.state media.new ≡ M.state media.old) }
        ensures host { (self.new.topo ≡ self.old.topo) × (self.new.windows ≡ self.old.windows) }
        ensures counts { (R.state regs.old).faults ≤ (R.state regs.new).faults }
    {
        pending_jobs_settle();
        finished_jobs_keep_machines();
        kept_routes_stay();
        whole_ranges_have_one_region();
        regions_stay_in_a_create();
        regions_stay_in_a_release();
        blocks_are_pieces();
        cleared_regions_leave_media();
        let Some(mut pending) = self.take_job() else {
            return Reply::NothingPending;
        };
        let total = pending.job.total();
        let done = pending.job.done();
        let upto = done + steps.min(total - done);
        if self.make(&mut pending, upto, regs).is_err() {
            return self.leave(pending);
        }
        if upto < total {
            self.keep(pending);
            return Reply::Stepped(Progress { done: upto, total });
        }
        self.finish(pending, media)
    }

    /// Ends a region. Where the bus fails all is undone, and where that fails too the job stays pending. Takes memory, all
    /// of it before the first write.
    pub(crate) fn destroy<R: Regs, M: Media>(
        &mut self,
        alloc: Global,
        name: Name,
        regs: &mut R,
        media: &mut M,
    ) -> Result<Reply, Memory>
        requires { Stands self.old (R.state regs.old) (M.state media.old) }
        ensures turn { IfOk result (IsTurnFor self.old self.new (R.state regs.old) (R.state regs.new) (M.state media.old)
            (M.state media.new) (commands.Destroy name)) }
        ensures outright { OwesRefusal self.old (commands.Destroy name) result }
        ensures refused { IfOk result (λ reply. is_refusal reply ≡ true → (self.new ≡ self.old)
            × ((R.state regs.new).blocks ≡ (R.state regs.old).blocks) × (M.state media.new ≡ M.state media.old)) }
        ensures memory { OnErr result ((self.new ≡ self.old) × (R.state regs.new ≡ R.state regs.old)
            × (M.state media.new ≡ M.state media.old)) }
        ensures host { (self.new.topo ≡ self.old.topo) × (self.new.windows ≡ self.old.windows) }
        ensures counts { (R.state regs.old).faults ≤ (R.state regs.new).faults }
    {
        jobs_have_one_list_of_writes();
        releases_begin_as_machines();
        release_releases_its_rows();
        let release = match self.asked_release(alloc, name)? {
            Ok(release) => release,
            Err(refusal) => return Ok(refusal),
        };
        let job = Job::release(alloc, &self.image, &release.rows)?;
        self.begin_release(release.place, job);
        Ok(self.carry_out(regs, media))
    }

    /// Carries out the job that was begun, from its first write on. Where the bus fails it is undone, and where that fails
    /// too it stays pending.
    pub(crate) fn carry_out<R: Regs, M: Media>(&mut self, regs: &mut R, media: &mut M) -> Reply
        requires { (m : Machine) × (job : RegionJob) × IsAt self.old (R.state regs.old) (M.state media.old) (begun job m) }
        ensures whole { IsWholeFor self.old self.new (R.state regs.old) (R.state regs.new) (M.state media.old) (M.state media.new) result }
        ensures refused { is_refusal result ≡ true
            → LeavesUndone self.old self.new (R.state regs.old) (R.state regs.new) (M.state media.old) (M.state media.new) }
        ensures host { (self.new.topo ≡ self.old.topo) × (self.new.windows ≡ self.old.windows) }
        ensures counts { (R.state regs.old).faults ≤ (R.state regs.new).faults }
    {
        pending_jobs_settle();
        finished_jobs_keep_machines();
        kept_routes_stay();
        whole_ranges_have_one_region();
        regions_stay_in_a_create();
        regions_stay_in_a_release();
        blocks_are_pieces();
        cleared_regions_leave_media();
        let Some(mut pending) = self.take_job() else {
            return Reply::NothingPending;
        };
        let total = pending.job.total();
        if self.make(&mut pending, total, regs).is_ok() {
            return self.finish(pending, media);
        }
        if self.undo(&mut pending, regs).is_err() {
            return self.leave(pending);
        }
        self.restore(pending);
        Reply::BusUndone
    }

    /// Begins to end a region, with no register written yet. Takes memory.
    pub(crate) fn begin_destroy(&mut self, alloc: Global, name: Name) -> Result<Reply, Memory>
        requires { (regs : RegsState) × (media : MediaState) × Stands self.old regs media }
        ensures turn { IfOk result (λ reply. (regs : RegsState) (media : MediaState)
            → IsTurnFor self.old self.new regs regs media media (commands.BeginDestroy name) reply) }
        ensures outright { OwesRefusal self.old (commands.BeginDestroy name) result }
        ensures refused { IfOk result (λ reply. is_refusal reply ≡ true → self.new ≡ self.old) }
        ensures memory { OnErr result (self.new ≡ self.old) }
        ensures host { (self.new.topo ≡ self.old.topo) × (self.new.windows ≡ self.old.windows) }
    {
        jobs_have_one_list_of_writes();
        releases_begin_as_machines();
        release_releases_its_rows();
        let release = match self.asked_release(alloc, name)? {
            Ok(release) => release,
            Err(refusal) => return Ok(refusal),
        };
        let job = Job::release(alloc, &self.image, &release.rows)?;
        let writes = job.total();
        self.begin_release(release.place, job);
        Ok(Reply::Begun(Begun { name, writes }))
    }

    /// The region at a place is no longer live, and the job that ends it is pending.
    fn begin_release(&mut self, place: usize, job: Job)
        requires here { place < length self.old.names }
        requires words { HasWordsOf self.old.image job.writes }
        ensures begun { BeginsRelease self.old place job self.new }
        ensures host { (self.new.topo ≡ self.old.topo) × (self.new.windows ≡ self.old.windows) }
    {
        let name = self.names.remove(place);
        let found = self.founds.remove(place);
        let kept = self.kepts.remove(place);
        let kind = Kind::Releases(place as u32);
        self.keep(PendingJob {
            kind,
            name,
            found,
            kept,
            job,
        });
    }

    /// The job that is pending, which the session then has no longer.
    fn take_job(&mut self) -> Option<PendingJob>
        ensures job { self.old.job ≡ option_map job_fields result }
        ensures taken { self.new ≡ record self.old { job = None } }
        ensures words { IfSome result (λ pending. HasWordsOf self.old.image pending.job.writes) }
    {
        self.job.take()
    }

    /// Takes back what a job has written, the last word first, or up to the one at which the bus fails.
    fn undo<R: Regs>(&mut self, pending: &mut PendingJob, regs: &mut R) -> Result<(), Failed>
        requires idle { self.old.job ≡ None }
        requires words { HasWordsOf self.old.image pending.old.job.writes }
        requires same { (R.state regs.old).blocks ≡ self.old.image }
        ensures back { IsTakenBackTo (job_fields pending.old) pending.new.job.done self.old.image self.new.image
            (R.state regs.old) (R.state regs.new) }
        ensures image { self.new ≡ record self.old { image = self.new.image } }
        ensures job { job_fields pending.new ≡ record (job_fields pending.old) { done = pending.new.job.done } }
        ensures kind { pending.new.kind ≡ pending.old.kind }
        ensures kept_words { HasWordsOf self.new.image pending.new.job.writes }
        ensures all { OnOk result (pending.new.job.done ≡ 0) }
        ensures part { OnErr result ((0 < pending.new.job.done) × (pending.new.job.done ≤ pending.old.job.done)) }
        // At a fault one call failed, behind these words; else none did.
        ensures failed { OnErr result (HasFailed (R.state regs.old) (R.state regs.new)
            (length (words_taken_back pending.old.job.writes pending.new.job.done pending.old.job.done) ∷ [])) }
        ensures unfailed { OnOk result (HasFailed (R.state regs.old) (R.state regs.new) []) }
    {
        pending.job.take_back_to(0, &mut self.image, regs)
    }

    /// Makes the next writes of a job until so many are made, or up to the one at which the bus fails.
    fn make<R: Regs>(
        &mut self,
        pending: &mut PendingJob,
        upto: u32,
        regs: &mut R,
    ) -> Result<(), Failed>
        requires idle { self.old.job ≡ None }
        requires ahead { pending.old.job.done ≤ upto }
        requires within { upto ≤ length pending.old.job.writes }
        requires words { HasWordsOf self.old.image pending.old.job.writes }
        requires same { (R.state regs.old).blocks ≡ self.old.image }
        ensures made { IsMadeTo (job_fields pending.old) pending.new.job.done self.old.image self.new.image
            (R.state regs.old) (R.state regs.new) }
        ensures image { self.new ≡ record self.old { image = self.new.image } }
        ensures job { job_fields pending.new ≡ record (job_fields pending.old) { done = pending.new.job.done } }
        ensures kind { pending.new.kind ≡ pending.old.kind }
        ensures kept_words { HasWordsOf self.new.image pending.new.job.writes }
        ensures all { OnOk result (pending.new.job.done ≡ upto) }
        ensures part { OnErr result ((pending.old.job.done ≤ pending.new.job.done) × (pending.new.job.done < upto)) }
        // At a fault one call failed, behind these words; else none did.
        ensures failed { OnErr result (HasFailed (R.state regs.old) (R.state regs.new)
            (length (words_made pending.old.job.writes pending.old.job.done pending.new.job.done) ∷ [])) }
        ensures unfailed { OnOk result (HasFailed (R.state regs.old) (R.state regs.new) []) }
    {
        pending.job.make_to(upto, &mut self.image, regs)
    }

    /// The job stays pending.
    pub(crate) fn keep(&mut self, pending: PendingJob)
        requires { HasWordsOf self.old.image pending.job.writes }
        ensures { self.new ≡ record self.old { job = Some (job_fields pending) } }
    {
        self.job = Some(pending);
    }

    /// The job is done: the region that it made is the last of the live ones, and no byte is left of one that it ended.
    fn finish<M: Media>(&mut self, pending: PendingJob, media: &mut M) -> Reply
        requires idle { self.old.job ≡ None }
        requires room { length self.old.names < region_limit }
        requires region { (s : System) × IsSystem s × IsRegion s pending.found }
        ensures session { self.new ≡ session_finished (job_fields pending) self.old }
        ensures reply { result ≡ finished_reply (job_fields pending) }
        ensures media { IsLeftByEnd (job_fields pending) (M.state media.old) (M.state media.new) }
    {
        match pending.kind {
            Kind::Creates => {
                let reply = Reply::Created(region_details(pending.name, &pending.found));
                self.push(pending.name, pending.found, pending.kept);
                reply
            }
            Kind::Releases(_) => {
                scrub_region(media, &pending.found);
                let name = pending.name;
                // a call lets go part by part, which is proved once for all that do
                drop(pending);
                Reply::Destroyed(name)
            }
        }
    }

    /// A region is live, behind the others.
    fn push(&mut self, name: Name, found: Found, kept: Kept)
        requires { length self.old.names < region_limit }
        ensures { self.new ≡ record self.old {
          names = self.old.names ++ name ∷ [];
          founds = self.old.founds ++ found ∷ [];
          kept = self.old.kept ++ kept ∷ [];
        } }
    {
        self.names.push_reserved(name);
        self.founds.push(found);
        self.kepts.push_reserved(kept);
    }

    /// The bus has failed, and the job stays pending.
    fn leave(&mut self, pending: PendingJob) -> Reply
        requires { HasWordsOf self.old.image pending.job.writes }
        ensures job { self.new ≡ record self.old { job = Some (job_fields pending) } }
        ensures reply { result ≡ Reply.BusPending record {
          name = pending.name;
          done = pending.job.done;
          total = length pending.job.writes;
        } }
    {
        let left = Pending {
            name: pending.name,
            done: pending.job.done(),
            total: pending.job.total(),
        };
        self.keep(pending);
        Reply::BusPending(left)
    }

    /// A job that is undone is gone; the region that it was to end is live again, at its place.
    fn restore(&mut self, pending: PendingJob)
        requires idle { self.old.job ≡ None }
        requires place { IfSome (place_in pending.kind) (λ place. place ≤ length self.old.names) }
        requires room { length self.old.names < region_limit }
        ensures { self.new ≡ session_undone (job_fields pending) self.old }
    {
        if let Kind::Releases(place) = pending.kind {
            self.insert(place as usize, pending.name, pending.found, pending.kept);
        } else {
            drop(pending);
        }
    }

    /// A region is live at this place.
    fn insert(&mut self, place: usize, name: Name, found: Found, kept: Kept)
        requires place { place ≤ length self.old.names }
        requires room { length self.old.names < region_limit }
        ensures { self.new ≡ record self.old {
          names = insert self.old.names place name;
          founds = insert self.old.founds place found;
          kept = insert self.old.kept place kept;
        } }
    {
        let _name = self.names.insert(place, name);
        self.founds.insert(place, found);
        let _kept = self.kepts.insert(place, kept);
    }
}

/// What is told of a region that was made.
fn region_details(name: Name, found: &Found) -> Named
    ensures { result ≡ named_region name found.now }
{
    Named {
        name,
        window: found.window,
        base: found.base,
        size: found.size,
        gran: found.gran,
        ways: found.ways,
    }
}
