//! Regions that a line asks to be made: what is asked for before the job begins, and the job itself.

ghost use Rattle.std.specs.Prelude.{◌≡◌, ◌≤◌, true, None, map, IfOk, OnErr};
ghost use Rattle.cxl_bus.specs.RegsState.{RegsState};
ghost use Rattle.cxl_media.specs.MediaState.{MediaState};
ghost use Rattle.cxl_script.specs.Grammar.{StatesGranCode};
ghost use Rattle.cxl_script.specs.declared.command.Command.TheVariants as commands;
ghost use Rattle.cxl_apply.specs.Steps.{HasWordsOf};
ghost use Rattle.cxl_model.specs.Hosts.{as_system};
ghost use Rattle.cxl_model.specs.Plans.{IsLegalPlan, with_rows};
ghost use Rattle.cxl_model.specs.declared.request.Request.{Request};
ghost use Rattle.cxl_machine.specs.Machine.{Machine};
ghost use Rattle.cxl_machine.specs.Replies.{is_refusal};
ghost use Rattle.cxl_machine.specs.Requests.{no_endpoint};
ghost use Rattle.cxl_machine.specs.Sound.{IsMachine, IsSettled};
ghost use Rattle.cxl_session.specs.Inside.{job_fields};
ghost use Rattle.cxl_session.specs.State.{image_in};
ghost use Rattle.cxl_session.specs.Standing.{StandsFor, Stands, IsKeptIn};
ghost use Rattle.cxl_session.specs.Outright.{OwesRefusal};
ghost use Rattle.cxl_session.specs.inner.Answering.{IsTurnFor};
ghost use Rattle.cxl_session.specs.inner.Creating.{own_of, IsEarlyRefusal, IsAskedPlan, IsPrepared, IsAskedCreate};

use crate::pending::{Kind, PendingJob};
use crate::session::Session;
use cxl_apply::{Job, create_commits_its_rows, regions_stay_after_a_create};
use cxl_bus::Regs;
use cxl_enc::{Memory, place_among};
use cxl_machine::{
    REGION_LIMIT, asked_creates_begin_as_machines, creates_are_legal, jobs_have_one_list_of_writes,
};
use cxl_media::Media;
use cxl_model::{Host, Plan, Row};
use cxl_reply::{Begun, Reply};
use cxl_request::first_unknown;
use cxl_script::Create;
use cxl_walk::{Kept, Own};
use std::alloc::Global;

impl Session {
    /// Makes a region. Where the bus fails all is undone, and where that fails too the job stays pending. Takes memory, all
    /// of it before the first write.
    pub(crate) fn create<R: Regs, M: Media>(
        &mut self,
        alloc: Global,
        create: &Create,
        regs: &mut R,
        media: &mut M,
    ) -> Result<Reply, Memory>
        requires stands { Stands self.old (R.state regs.old) (M.state media.old) }
        requires code { StatesGranCode create.now }
        ensures turn { IfOk result (IsTurnFor self.old self.new (R.state regs.old) (R.state regs.new) (M.state media.old)
            (M.state media.new) (commands.Create create.now)) }
        ensures outright { OwesRefusal self.old (commands.Create create.now) result }
        ensures refused { IfOk result (λ reply. is_refusal reply ≡ true → (self.new ≡ self.old)
            × ((R.state regs.new).blocks ≡ (R.state regs.old).blocks) × (M.state media.new ≡ M.state media.old)) }
        ensures memory { OnErr result ((self.new ≡ self.old) × (R.state regs.new ≡ R.state regs.old)
            × (M.state media.new ≡ M.state media.old)) }
        ensures host { (self.new.topo ≡ self.old.topo) × (self.new.windows ≡ self.old.windows) }
        ensures counts { (R.state regs.old).faults ≤ (R.state regs.new).faults }
    {
        asked_creates_begin_as_machines();
        let pending = match self.asked_create(alloc, create)? {
            Ok(pending) => pending,
            Err(refusal) => return Ok(refusal),
        };
        self.keep(pending);
        Ok(self.carry_out(regs, media))
    }

    /// Begins to make a region, with no register written yet. Takes memory.
    pub(crate) fn begin_create(&mut self, alloc: Global, create: &Create) -> Result<Reply, Memory>
        requires stands { (regs : RegsState) × (media : MediaState) × Stands self.old regs media }
        requires code { StatesGranCode create.now }
        ensures turn { IfOk result (λ reply. (regs : RegsState) (media : MediaState)
            → IsTurnFor self.old self.new regs regs media media (commands.BeginCreate create.now) reply) }
        ensures outright { OwesRefusal self.old (commands.BeginCreate create.now) result }
        ensures refused { IfOk result (λ reply. is_refusal reply ≡ true → self.new ≡ self.old) }
        ensures memory { OnErr result (self.new ≡ self.old) }
        ensures host { (self.new.topo ≡ self.old.topo) × (self.new.windows ≡ self.old.windows) }
    {
        asked_creates_begin_as_machines();
        let pending = match self.asked_create(alloc, create)? {
            Ok(pending) => pending,
            Err(refusal) => return Ok(refusal),
        };
        let name = pending.name;
        let writes = pending.job.total();
        self.keep(pending);
        Ok(Reply::Begun(Begun { name, writes }))
    }

    /// The create that a line asks for, ready to begin; or why it is refused. Takes memory.
    fn asked_create(
        &self,
        alloc: Global,
        create: &Create,
    ) -> Result<Result<PendingJob, Reply>, Memory>
        requires stands { (m : Machine) × StandsFor self.now m × IsMachine m }
        requires code { StatesGranCode create.now }
        ensures asked { IfOk result (λ asked. (m : Machine) → StandsFor self.now m → IsMachine m
            → IsAskedCreate m create.now asked) }
        ensures words { IfOk result (λ asked. IfOk asked (λ pending. HasWordsOf self.now.image pending.job.writes)) }
        ensures outright { OwesRefusal self.now (commands.Create create.now) result }
    {
        creates_are_legal();
        if let Some(refusal) = self.early_refusal(create) {
            return Ok(Err(refusal));
        }
        let plan = match self.plan_sought(alloc, create)? {
            Ok(plan) => plan,
            Err(refusal) => return Ok(Err(refusal)),
        };
        let pending = prepared(alloc, &self.host(), plan)?;
        Ok(Ok(pending))
    }

    /// Why a create is refused before a plan is sought. Takes no memory.
    fn early_refusal(&self, create: &Create) -> Option<Reply>
        ensures { (m : Machine) → StandsFor self.now m → IsEarlyRefusal m create.now result }
    {
        if let Some(pending) = &self.job {
            return Some(Reply::Busy(pending.name));
        }
        if place_among(&self.names, &create.name).is_some() {
            return Some(Reply::NameTaken(create.name));
        }
        if let Some(refusal) = self.unknown_endpoint(create) {
            return Some(refusal);
        }
        if self.names.len() < REGION_LIMIT {
            return None;
        }
        Some(Reply::RegionsFull)
    }

    /// The refusal of the first name on a line that no endpoint has.
    fn unknown_endpoint(&self, create: &Create) -> Option<Reply>
        ensures { (m : Machine) → StandsFor self.now m → result ≡ no_endpoint m create.now.endpoints }
    {
        match first_unknown(&self.topo, create.endpoints.items()) {
            Some(name) => Some(Reply::NoEndpoint(name)),
            None => None,
        }
    }

    /// The plan that a line asks for over the session's image, or why there is none. Takes memory.
    fn plan_sought(&self, alloc: Global, create: &Create) -> Result<Result<Plan, Reply>, Memory>
        requires settled { IsSettled (image_in self.now) }
        requires code { StatesGranCode create.now }
        ensures { IfOk result (λ answer. (m : Machine) → m.settled ≡ image_in self.now
            → IsAskedPlan m create.now answer) }
    {
        cxl_request::asked_plan(alloc, create, &self.host())
    }

    /// Its image, topology and windows, as they are read together.
    fn host(&self) -> Host<'_>
        ensures { as_system result ≡ image_in self.now }
    {
        Host {
            image: &self.image,
            topo: &self.topo,
            windows: &self.windows,
        }
    }
}

/// The job of a plan, with the plan's region and its routes where all rows are committed. Takes memory.
fn prepared(alloc: Global, host: &Host, plan: Plan) -> Result<PendingJob, Memory>
    requires settled { IsSettled (as_system host.now) }
    requires legal { (request : Request) × IsLegalPlan (as_system host.now) request plan }
    ensures pending { IfOk result (λ pending. IsPrepared (as_system host.now) plan (job_fields pending)) }
    ensures words { IfOk result (λ pending. HasWordsOf host.now.image.now pending.job.writes) }
{
    create_commits_its_rows();
    jobs_have_one_list_of_writes();
    let job = Job::create(alloc, host.image, plan.rows.items())?;
    let kept = routes_ahead(alloc, host, &plan)?;
    Ok(PendingJob {
        kind: Kind::Creates,
        name: plan.name,
        found: plan.found,
        kept,
        job,
    })
}

/// The routes of a plan's region where all its rows are committed: by the rows, with no image made for it. Takes memory.
fn routes_ahead(alloc: Global, host: &Host, plan: &Plan) -> Result<Kept, Memory>
    requires settled { IsSettled (as_system host.now) }
    requires legal { (request : Request) × IsLegalPlan (as_system host.now) request plan.now }
    ensures { IfOk result (IsKeptIn (with_rows (as_system host.now) plan.now.rows) plan.now.found) }
{
    regions_stay_after_a_create();
    let own = own_decoders(alloc, plan.rows.items())?;
    let kept = Kept::along(alloc, host.topo, host.windows, &plan.found, own)?;
    Ok(kept)
}

/// The decoders that rows will be. Takes memory.
fn own_decoders(alloc: Global, rows: &[Row]) -> Result<Vec<Own>, Memory>
    ensures { IfOk result (λ own. own.items ≡ map own_of rows.now) }
{
    let own = rows.iter().map(|row| own_of(row)).collect(alloc)?;
    Ok(own)
}

/// The decoder that a row will be.
fn own_of(row: &Row) -> Own
    ensures { result ≡ own_of row.now }
{
    Own {
        node: row.node,
        index: row.index,
        ways: row.decoder.interleave_ways(),
    }
}
