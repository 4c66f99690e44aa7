//! A job: its register writes, made one after the other or taken back.

ghost use Rattle.std.specs.Prelude.{◌≡◌, ◌≢◌, ℕ, ◌<◌, ◌≤◌, ◌↔◌, List, [], ◌∷◌, length, drop, All, IfOk, OnOk, OnErr};
ghost use Rattle.cxl_bus.specs.Failed.{HasFailed};
ghost use Rattle.cxl_bus.specs.Trail.{trail_with};
ghost use Rattle.cxl_enc.specs.Faults.{Rose, HasCause, LeavesCount};
ghost use Rattle.cxl_regs.specs.Registers.{Registers};
ghost use Rattle.cxl_apply.specs.Jobs.{AreCreateWrites, AreReleaseWrites, AreTakenBack, AreOfDifferentNodes, CanCreate, CanRelease, blocks_after_writes, blocks_done};
ghost use Rattle.cxl_apply.specs.Steps.{HasWordsOf, MakesWrite, TakesBack, IsAsBefore, MatchStepped};
ghost use Rattle.cxl_apply.specs.WordsSent.{words_made, words_taken_back};

use crate::laws::writes_are_taken_back;
use crate::rows::{create_writes, release_writes, rising};
use crate::write::{Stepped, Write};
use cxl_bus::Regs;
use cxl_enc::Failed;
use cxl_image::Image;
use cxl_model::{Memory, Row};
use cxl_regs::writes_keep_places;
use std::alloc::Global;
use std::marker::Model;

/// The register writes that make a region, from its endpoints up, or that end one, from its bridges down, and how
/// many of them are made. It takes all its memory when it is made. (This project's rule.)
#[derive(Drop)]
pub struct Job {
    writes: Vec<Write>,
    done: usize,
}

impl Model for Job {
    ghost use Rattle.cxl_apply.specs.Steps.{JobState, IsJobState};

    ghost Value = { JobState };

    ghost view = { λ j. record { writes = j.writes.items; done = j.done } };

    ghost invariant = { λ j. IsJobState (record { writes = j.writes.items; done = j.done }) };
}

impl Job {
    /// The job that gives each row's registers to its decoder and commits it. Takes memory.
    pub fn create(alloc: Global, image: &Image, rows: &[Row]) -> Result<Job, Memory>
        requires each { All (CanCreate image.now) rows.now }
        requires apart { AreOfDifferentNodes rows.now }
        ensures writes { IfOk result (λ job. AreCreateWrites image.now rows.now job.writes) }
        ensures none_done { IfOk result (λ job. job.done ≡ 0) }
        ensures words { IfOk result (λ job. HasWordsOf image.now job.writes) }
        ensures undone { IfOk result (λ job. AreTakenBack image.now job.writes) }
    {
        writes_are_taken_back();
        let _count = image.count();
        let writes = create_writes(alloc, image, rows)?;
        Ok(Job { writes, done: 0 })
    }

    /// The job that releases each row's decoder. Takes memory.
    pub fn release(alloc: Global, image: &Image, rows: &[Row]) -> Result<Job, Memory>
        requires each { All (CanRelease image.now) rows.now }
        requires apart { AreOfDifferentNodes rows.now }
        ensures writes { IfOk result (λ job. AreReleaseWrites rows.now job.writes) }
        ensures none_done { IfOk result (λ job. job.done ≡ 0) }
        ensures words { IfOk result (λ job. HasWordsOf image.now job.writes) }
        ensures undone { IfOk result (λ job. AreTakenBack image.now job.writes) }
    {
        writes_are_taken_back();
        let rows = rising(alloc, rows)?;
        // No node stands twice.
        let few = rows.len() <= image.count() as usize;
        prove!(few);
        let writes = release_writes(alloc, image, &rows)?;
        Ok(Job { writes, done: 0 })
    }

    /// How many writes are made.
    pub fn done(&self) -> u32
        ensures value { result ≡ self.now.done }
        ensures within { self.now.done ≤ length self.now.writes }
    {
        self.done as u32
    }

    /// How many writes the job has.
    pub fn total(&self) -> u32
        ensures { result ≡ length self.now.writes }
    {
        self.writes.len() as u32
    }

    /// Makes the next write, on the bus and then in the image, which are to hold the same blocks. Where the bus
    /// failed nothing changed.
    pub fn step<R: Regs>(&mut self, image: &mut Image, regs: &mut R) -> Stepped
        requires left { self.old.done < length self.old.writes }
        requires words { HasWordsOf image.old self.old.writes }
        requires same { (R.state regs.old).blocks ≡ image.old }
        ensures event { MatchStepped result
            (MakesWrite self.old self.new image.old image.new (R.state regs.old) (R.state regs.new))
            (IsAsBefore self.old self.new image.old image.new (R.state regs.old) (R.state regs.new)) }
        ensures last { (result ≡ Stepped.Done) ↔ (self.new.done ≡ length self.new.writes) }
        ensures cause { result ≡ Stepped.BusFault → Rose (R.state regs.old).faults (R.state regs.new).faults }
        ensures counts { (R.state regs.old).faults ≤ (R.state regs.new).faults }
        ensures alone { (R.state regs.new).counts_failures_alone ≡ (R.state regs.old).counts_failures_alone }
        // A fault is not swallowed.
        ensures unswallowed { (result ≢ Stepped.BusFault) → LeavesCount (R.state regs.old).counts_failures_alone
            (R.state regs.old).faults (R.state regs.new).faults }
        // At a fault one call failed, behind all words sent so far; else none did.
        ensures failed { result ≡ Stepped.BusFault → HasFailed (R.state regs.old) (R.state regs.new) (0 ∷ []) }
        ensures unfailed { (result ≢ Stepped.BusFault) → HasFailed (R.state regs.old) (R.state regs.new) [] }
        // The image goes on from the one that the job was made for.
        ensures on_way { (start : List Registers) → image.old ≡ blocks_done start self.old.writes self.old.done
            → image.new ≡ blocks_done start self.new.writes self.new.done }
        ensures kept_words { HasWordsOf image.new self.new.writes }
        ensures kept_same { (R.state regs.new).blocks ≡ image.new }
    {
        writes_keep_places();
        let write = self.writes[self.done];
        if regs.write32(write.node, write.off, write.value).is_err() {
            return Stepped::BusFault;
        }
        image.write32(write.node, write.off, write.value);
        self.done += 1;
        if self.done == self.writes.len() {
            Stepped::Done
        } else {
            Stepped::More
        }
    }

    /// Takes the last write that was made back, on the bus and then in the image, which are to hold the same
    /// blocks. Where the bus failed nothing changed.
    pub fn undo_step<R: Regs>(&mut self, image: &mut Image, regs: &mut R) -> Stepped
        requires made { 0 < self.old.done }
        requires words { HasWordsOf image.old self.old.writes }
        requires same { (R.state regs.old).blocks ≡ image.old }
        ensures event { MatchStepped result
            (TakesBack self.old self.new image.old image.new (R.state regs.old) (R.state regs.new))
            (IsAsBefore self.old self.new image.old image.new (R.state regs.old) (R.state regs.new)) }
        ensures last { (result ≡ Stepped.Done) ↔ (self.new.done ≡ 0) }
        ensures cause { result ≡ Stepped.BusFault → Rose (R.state regs.old).faults (R.state regs.new).faults }
        ensures counts { (R.state regs.old).faults ≤ (R.state regs.new).faults }
        ensures alone { (R.state regs.new).counts_failures_alone ≡ (R.state regs.old).counts_failures_alone }
        // A fault is not swallowed.
        ensures unswallowed { (result ≢ Stepped.BusFault) → LeavesCount (R.state regs.old).counts_failures_alone
            (R.state regs.old).faults (R.state regs.new).faults }
        // At a fault one call failed, behind all words sent so far; else none did.
        ensures failed { result ≡ Stepped.BusFault → HasFailed (R.state regs.old) (R.state regs.new) (0 ∷ []) }
        ensures unfailed { (result ≢ Stepped.BusFault) → HasFailed (R.state regs.old) (R.state regs.new) [] }
        // The image is again what it was before that write.
        ensures on_way { (start : List Registers) → AreTakenBack start self.old.writes
            → image.old ≡ blocks_done start self.old.writes self.old.done
            → image.new ≡ blocks_done start self.new.writes self.new.done }
        ensures kept_words { HasWordsOf image.new self.new.writes }
        ensures kept_same { (R.state regs.new).blocks ≡ image.new }
    {
        writes_keep_places();
        let write = self.writes[self.done - 1];
        if regs.write32(write.node, write.off, write.back).is_err() {
            return Stepped::BusFault;
        }
        image.write32(write.node, write.off, write.back);
        self.done -= 1;
        if self.done == 0 {
            Stepped::Done
        } else {
            Stepped::More
        }
    }

    /// Makes the next writes until so many are made, or up to the first that fails: behind that one nothing is called.
    pub fn make_to<R: Regs>(
        &mut self,
        upto: u32,
        image: &mut Image,
        regs: &mut R,
    ) -> Result<(), Failed>
        requires ahead { self.old.done ≤ upto }
        requires within { upto ≤ length self.old.writes }
        requires words { HasWordsOf image.old self.old.writes }
        requires same { (R.state regs.old).blocks ≡ image.old }
        ensures writes { self.new.writes ≡ self.old.writes }
        // All of them, or up to the write that failed.
        ensures made { OnOk result (self.new.done ≡ upto) }
        ensures stopped { OnErr result ((self.old.done ≤ self.new.done) × (self.new.done < upto)) }
        ensures on_way { (start : List Registers) → image.old ≡ blocks_done start self.old.writes self.old.done
            → image.new ≡ blocks_done start self.new.writes self.new.done }
        // Each is one word, in order, and no other word is sent.
        ensures sent { (R.state regs.new).trail
            ≡ trail_with (R.state regs.old).trail (words_made self.old.writes self.old.done self.new.done) }
        ensures kept_words { HasWordsOf image.new self.new.writes }
        ensures kept_same { (R.state regs.new).blocks ≡ image.new }
        ensures cause { HasCause result (R.state regs.old).faults (R.state regs.new).faults }
        ensures counts { (R.state regs.old).faults ≤ (R.state regs.new).faults }
        ensures alone { (R.state regs.new).counts_failures_alone ≡ (R.state regs.old).counts_failures_alone }
        // A fault is not swallowed.
        ensures unswallowed { OnOk result (LeavesCount (R.state regs.old).counts_failures_alone
            (R.state regs.old).faults (R.state regs.new).faults) }
        // At a fault one call failed, behind these words; else none did.
        ensures failed { OnErr result (HasFailed (R.state regs.old) (R.state regs.new)
            (length (words_made self.old.writes self.old.done self.new.done) ∷ [])) }
        ensures unfailed { OnOk result (HasFailed (R.state regs.old) (R.state regs.new) []) }
    {
        while self.done() < upto {
            if self.step(image, regs) == Stepped::BusFault {
                return Err(Failed);
            }
        }
        Ok(())
    }

    /// Takes writes back, the last one first, until so many are left, or up to the first that fails: behind that one nothing
    /// is called.
    pub fn take_back_to<R: Regs>(
        &mut self,
        downto: u32,
        image: &mut Image,
        regs: &mut R,
    ) -> Result<(), Failed>
        requires made { downto ≤ self.old.done }
        requires words { HasWordsOf image.old self.old.writes }
        requires same { (R.state regs.old).blocks ≡ image.old }
        ensures writes { self.new.writes ≡ self.old.writes }
        // Down to so many, or to the one that failed.
        ensures taken { OnOk result (self.new.done ≡ downto) }
        ensures stopped { OnErr result ((downto < self.new.done) × (self.new.done ≤ self.old.done)) }
        ensures on_way { (start : List Registers) → AreTakenBack start self.old.writes
            → image.old ≡ blocks_done start self.old.writes self.old.done
            → image.new ≡ blocks_done start self.new.writes self.new.done }
        // Each is one word, the last one first, and no other word is sent.
        ensures sent { (R.state regs.new).trail
            ≡ trail_with (R.state regs.old).trail (words_taken_back self.old.writes self.new.done self.old.done) }
        ensures kept_words { HasWordsOf image.new self.new.writes }
        ensures kept_same { (R.state regs.new).blocks ≡ image.new }
        ensures cause { HasCause result (R.state regs.old).faults (R.state regs.new).faults }
        ensures counts { (R.state regs.old).faults ≤ (R.state regs.new).faults }
        ensures alone { (R.state regs.new).counts_failures_alone ≡ (R.state regs.old).counts_failures_alone }
        // A fault is not swallowed.
        ensures unswallowed { OnOk result (LeavesCount (R.state regs.old).counts_failures_alone
            (R.state regs.old).faults (R.state regs.new).faults) }
        // At a fault one call failed, behind these words; else none did.
        ensures failed { OnErr result (HasFailed (R.state regs.old) (R.state regs.new)
            (length (words_taken_back self.old.writes self.new.done self.old.done) ∷ [])) }
        ensures unfailed { OnOk result (HasFailed (R.state regs.old) (R.state regs.new) []) }
    {
        while downto < self.done() {
            if self.undo_step(image, regs) == Stepped::BusFault {
                return Err(Failed);
            }
        }
        Ok(())
    }

    /// The image after the writes that are left. Takes memory.
    pub fn ahead(&self, alloc: Global, image: &Image) -> Result<Image, Memory>
        requires { HasWordsOf image.now self.now.writes }
        ensures left { IfOk result (λ after. after ≡ blocks_after_writes image.now (drop self.now.done self.now.writes)) }
        ensures whole { IfOk result (λ after. (start : List Registers)
            → image.now ≡ blocks_done start self.now.writes self.now.done
            → after ≡ blocks_after_writes start self.now.writes) }
    {
        let mut after = image.copy(alloc)?;
        for write in &self.writes[self.done..] {
            after.write32(write.node, write.off, write.value);
        }
        Ok(after)
    }
}
