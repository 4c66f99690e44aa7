//! How one command is carried out.

ghost use Rattle.std.specs.Prelude.{◌≡◌, ◌≤◌, true, false, [], Ok, IsOk, IfOk, OnOk, OnErr};
ghost use Rattle.cxl_bus.specs.Failed.{HasFailed};
ghost use Rattle.cxl_bus.specs.RegsState.{IsUntouched};
ghost use Rattle.cxl_script.specs.Grammar.{IsRanged};
ghost use Rattle.cxl_machine.specs.Memory.{takes_memory};
ghost use Rattle.cxl_machine.specs.Replies.{is_refusal};
ghost use Rattle.cxl_machine.specs.Scripts.{Turn, TakesTurn};
ghost use Rattle.cxl_session.specs.Standing.{Stands, ForEachMachine, HasTaken};
ghost use Rattle.cxl_session.specs.Outright.{OwesRefusal};
ghost use Rattle.cxl_session.specs.inner.Answering.{is_access};

use crate::placing::put_reply;
use crate::session::Session;
use cxl_bus::Regs;
use cxl_enc::Memory;
use cxl_media::Roll;
use cxl_reply::Reply;
use cxl_script::Command;
use std::alloc::Global;

impl Session {
    /// Carries out one command. Registers and media hold what the last call on this session left in them. Takes memory, all
    /// of it before the first write; after `Memory` session, registers and media are as before. (This project's rules.)
    pub fn act<R: Regs, M: Roll>(
        &mut self,
        alloc: Global,
        command: &Command,
        regs: &mut R,
        media: &mut M,
    ) -> Result<Reply, Memory>
        requires stands { Stands self.old (R.state regs.old) (M.state media.old) }
        requires ranged { IsRanged command.now }

        // The reply, the next machine, the words and the calls that failed, by number and by place, are those of a
        // turn of the machine. So a command stops or undoes at its first fault, and an undo is tried once.
        ensures answer { IfOk result (λ reply. ForEachMachine self.old (R.state regs.old) (M.state media.old) (λ m.
            (turn : Turn) × TakesTurn m (Ok command.now) turn
            × HasTaken turn reply self.new (R.state regs.old) (R.state regs.new) (M.state media.new))) }
        // A refused command leaves session, registers and media as they were; one that was undone, word for word.
        ensures refused { IfOk result (λ reply. is_refusal reply ≡ true → (self.new ≡ self.old)
            × ((R.state regs.new).blocks ≡ (R.state regs.old).blocks) × (M.state media.new ≡ M.state media.old)) }
        // After want of memory nothing has changed, and nothing is sent.
        ensures memory { OnErr result ((self.new ≡ self.old) × IsUntouched (R.state regs.old) (R.state regs.new)
            × (M.state media.new ≡ M.state media.old)) }
        // Nor did a call of the bus fail.
        ensures unfailed { OnErr result (HasFailed (R.state regs.old) (R.state regs.new) []) }
        // A command that takes none is answered, also where a store lacks a frame, or a job is pending.
        ensures ready { takes_memory command.now ≡ false → IsOk result }
        // So is one that is refused outright.
        ensures outright { OwesRefusal self.old command.now result }
        // Its image is the bus's, over the same host.
        ensures image { self.new.image ≡ (R.state regs.new).blocks }
        ensures host { (self.new.topo ≡ self.old.topo) × (self.new.windows ≡ self.old.windows) }
        ensures counts { (R.state regs.old).faults ≤ (R.state regs.new).faults }
    {
        let mut reply = Reply::NothingPending;
        self.act_into(alloc, command, &mut reply, regs, media)
            .and(Ok(reply))
    }

    /// The same, with the reply in the place of one to an earlier command, so that a load of as many bytes can have its list. What
    /// that was changes nothing. After `Memory` the reply may be any. (This project's rules.) Takes memory.
    pub fn act_into<R: Regs, M: Roll>(
        &mut self,
        alloc: Global,
        command: &Command,
        reply: &mut Reply,
        regs: &mut R,
        media: &mut M,
    ) -> Result<(), Memory>
        requires stands { Stands self.old (R.state regs.old) (M.state media.old) }
        requires ranged { IsRanged command.now }

        // The reply, the next machine, the words and the calls that failed, by number and by place, are those of a
        // turn of the machine. So a command stops or undoes at its first fault, and an undo is tried once.
        ensures answer { OnOk result (ForEachMachine self.old (R.state regs.old) (M.state media.old) (λ m.
            (turn : Turn) × TakesTurn m (Ok command.now) turn
            × HasTaken turn reply.new self.new (R.state regs.old) (R.state regs.new) (M.state media.new))) }
        // A refused command leaves session, registers and media as they were; one that was undone, word for word.
        ensures refused { OnOk result (is_refusal reply.new ≡ true → (self.new ≡ self.old)
            × ((R.state regs.new).blocks ≡ (R.state regs.old).blocks) × (M.state media.new ≡ M.state media.old)) }
        // After want of memory nothing has changed, and nothing is sent.
        ensures memory { OnErr result ((self.new ≡ self.old) × IsUntouched (R.state regs.old) (R.state regs.new)
            × (M.state media.new ≡ M.state media.old)) }
        // Nor did a call of the bus fail.
        ensures unfailed { OnErr result (HasFailed (R.state regs.old) (R.state regs.new) []) }
        // A command that takes none is answered, also where a store lacks a frame, or a job is pending.
        ensures ready { takes_memory command.now ≡ false → IsOk result }
        // So is one that is refused outright.
        ensures outright { OwesRefusal self.old command.now result }
        // Its image is the bus's, over the same host.
        ensures image { self.new.image ≡ (R.state regs.new).blocks }
        ensures host { (self.new.topo ≡ self.old.topo) × (self.new.windows ≡ self.old.windows) }
        ensures counts { (R.state regs.old).faults ≤ (R.state regs.new).faults }
    {
        match command {
            Command::Load(load) => self.load(alloc, *load, media, reply),
            Command::Store(store) => Ok(put_reply(reply, self.store(store, media))),
            Command::Down(h) => Ok(self.put_down(*h, reply)),
            Command::Up(up) => Ok(self.put_up(*up, reply)),
            _ => self.act_on_regions_into(alloc, command, reply, regs, media),
        }
    }

    /// The same of another command, in a function that stays one, so that a load clears no room for it.
    #[inline(never)]
    fn act_on_regions_into<R: Regs, M: Roll>(
        &mut self,
        alloc: Global,
        command: &Command,
        reply: &mut Reply,
        regs: &mut R,
        media: &mut M,
    ) -> Result<(), Memory>
        requires stands { Stands self.old (R.state regs.old) (M.state media.old) }
        requires ranged { IsRanged command.now }
        requires other { is_access command.now ≡ false }
        ensures answer { OnOk result (ForEachMachine self.old (R.state regs.old) (M.state media.old) (λ m.
            (turn : Turn) × TakesTurn m (Ok command.now) turn
            × HasTaken turn reply.new self.new (R.state regs.old) (R.state regs.new) (M.state media.new))) }
        ensures refused { OnOk result (is_refusal reply.new ≡ true → (self.new ≡ self.old)
            × ((R.state regs.new).blocks ≡ (R.state regs.old).blocks) × (M.state media.new ≡ M.state media.old)) }
        ensures memory { OnErr result ((self.new ≡ self.old) × IsUntouched (R.state regs.old) (R.state regs.new)
            × (M.state media.new ≡ M.state media.old)) }
        ensures unfailed { OnErr result (HasFailed (R.state regs.old) (R.state regs.new) []) }
        ensures ready { takes_memory command.now ≡ false → IsOk result }
        ensures outright { OwesRefusal self.old command.now result }
        ensures image { self.new.image ≡ (R.state regs.new).blocks }
        ensures host { (self.new.topo ≡ self.old.topo) × (self.new.windows ≡ self.old.windows) }
        ensures counts { (R.state regs.old).faults ≤ (R.state regs.new).faults }
    {
        put_reply(reply, self.act_on_regions(alloc, command, regs, media)?);
        Ok(())
    }

    /// Carries out a command that is no access.
    fn act_on_regions<R: Regs, M: Roll>(
        &mut self,
        alloc: Global,
        command: &Command,
        regs: &mut R,
        media: &mut M,
    ) -> Result<Reply, Memory>
        requires stands { Stands self.old (R.state regs.old) (M.state media.old) }
        requires ranged { IsRanged command.now }
        requires other { is_access command.now ≡ false }
        ensures answer { IfOk result (λ reply. ForEachMachine self.old (R.state regs.old) (M.state media.old) (λ m.
            (turn : Turn) × TakesTurn m (Ok command.now) turn
            × HasTaken turn reply self.new (R.state regs.old) (R.state regs.new) (M.state media.new))) }
        ensures refused { IfOk result (λ reply. is_refusal reply ≡ true → (self.new ≡ self.old)
            × ((R.state regs.new).blocks ≡ (R.state regs.old).blocks) × (M.state media.new ≡ M.state media.old)) }
        ensures memory { OnErr result ((self.new ≡ self.old) × IsUntouched (R.state regs.old) (R.state regs.new)
            × (M.state media.new ≡ M.state media.old)) }
        ensures unfailed { OnErr result (HasFailed (R.state regs.old) (R.state regs.new) []) }
        ensures ready { takes_memory command.now ≡ false → IsOk result }
        ensures outright { OwesRefusal self.old command.now result }
        ensures image { self.new.image ≡ (R.state regs.new).blocks }
        ensures host { (self.new.topo ≡ self.old.topo) × (self.new.windows ≡ self.old.windows) }
        ensures counts { (R.state regs.old).faults ≤ (R.state regs.new).faults }
    {
        match command {
            Command::Create(create) => self.create(alloc, create, regs, media),
            Command::Destroy(name) => self.destroy(alloc, *name, regs, media),
            Command::Show(name) => self.show(alloc, *name, regs),
            Command::Poison(poison) => self.poison(alloc, poison),
            Command::BeginCreate(create) => self.begin_create(alloc, create),
            Command::BeginDestroy(name) => self.begin_destroy(alloc, *name),
            Command::Step(steps) => Ok(self.step(*steps, regs, media)),
            Command::Abort => Ok(self.abort(regs)),
            Command::Range(reach) => self.range(alloc, *reach),
            Command::Spread(reach) => self.spread(alloc, *reach),
            Command::Copy(pair) => self.copy_region(alloc, pair, media),
            Command::Move(pair) => self.move_region(alloc, pair, media),
            Command::Load(_) | Command::Store(_) | Command::Down(_) | Command::Up(_) =>
                unreachable!(),
        }
    }
}
