//! The command `gen`.

ghost use Rattle.std.specs.Prelude.{◌≡◌, ℕ, ◌≤◌, List, take, map, IfOk, OnErr};
ghost use Rattle.cxl_gen.specs.Made.{made_tree};
ghost use Rattle.cxl_inputs.specs.Outcome.{one_piece};
ghost use Rattle.cxl_io.specs.Source.{SourceState};
ghost use Rattle.cxl_machine.specs.Machine.{present};
ghost use Rattle.cxl_machine.specs.Scripts.{Asked, Turn};
ghost use Rattle.cxl_machine.specs.Turns.{machine_after};
ghost use Rattle.cxl_model.specs.System.{system_of, bridge_uids};
ghost use Rattle.cxl_session.specs.Standing.{Stands, ForEachMachine};
ghost use Rattle.cxl_session.specs.State.{image_in};
ghost use Rattle.cxl_turns.specs.Counts.{counts_of};
ghost use Rattle.cxl_turns.specs.Going.{HasGoneOn};
ghost use Rattle.cxl_window.specs.Windows.{AreMadeWith};
ghost use Rattle.cxl_shell.specs.Devices.{devices};
ghost use Rattle.cxl_shell.specs.Endings.{EndsGen};
ghost use Rattle.cxl_shell.specs.commands.Gen.{made_asked, gen_text, gen_told, HasChecked};
ghost use Rattle.cxl_shell.specs.inner.Generated.{made_host, IsMadeHost, EndsMade};

use crate::commands::script::unopened;
use cxl_bus::Regs;
use cxl_check::{CheckFault, check};
use cxl_gen::{
    Command, command_count, made_systems_are_sound, made_table, made_tree, make_command,
};
use cxl_image::Image;
use cxl_inputs::{Outcome, OwnedHost, Status, finish};
use cxl_io::{Memory, Sink};
use cxl_media::Roll;
use cxl_model::{accepted_or_breach, reset_hosts_are_accepted};
use cxl_reply::Reply;
use cxl_session::Session;
use cxl_turns::{Counts, carry_out_counted};
use std::alloc::Global;

/// Carries out the commands of the generated system of a number, from reset on. It tells what is counted of the
/// replies, and how many regions a check of the last image finds. It reads nothing.
pub(crate) fn generated<K: Sink, R: Regs, M: Roll>(
    alloc: Global,
    n: u32,
    out: &mut K,
    regs: &mut R,
    media: &mut M,
) -> Status
    requires some { 1 ≤ n }
    requires few { n ≤ 32 }
    ensures ends { (script : SourceState) → EndsMade n (made_host n) (made_tree n).frames
        (devices script (R.state regs.old) (M.state media.old)) (devices script (R.state regs.new) (M.state media.new))
        (K.state out.old) (K.state out.new) result }
    ensures sink { (K.state out.old).faults ≤ (K.state out.new).faults }
    ensures bus { (R.state regs.old).faults ≤ (R.state regs.new).faults }
{
    match made_host(alloc, n) {
        Ok(host) => over_host(alloc, n, host, out, regs, media),
        Err(Memory) => Status::Memory,
    }
}

/// The host of a number after reset.
fn made_host(alloc: Global, n: u32) -> Result<OwnedHost, Memory>
    requires some { 1 ≤ n }
    requires few { n ≤ 32 }
    ensures { IfOk result (λ host. IsMadeHost n (system_of host.image host.topo host.windows.items) host.topo) }
{
    made_systems_are_sound();
    reset_hosts_are_accepted();
    let cedt = made_table(alloc, n)?;
    let topo = made_tree(alloc, n)?;
    let Ok(image) = Image::new(alloc, &topo) else {
        drop(topo);
        return Err(Memory);
    };
    let host = OwnedHost::of(alloc, &cedt, topo, image)?;
    Ok(host)
}

/// Carries out the commands of the number over its host.
fn over_host<K: Sink, R: Regs, M: Roll>(
    alloc: Global,
    n: u32,
    host: OwnedHost,
    out: &mut K,
    regs: &mut R,
    media: &mut M,
) -> Status
    requires few { n ≤ 32 }
    requires made { IsMadeHost n (system_of host.image host.topo host.windows.items) host.topo }
    ensures ends { (script : SourceState) → EndsMade n (system_of host.image host.topo host.windows.items) host.topo.frames
        (devices script (R.state regs.old) (M.state media.old)) (devices script (R.state regs.new) (M.state media.new))
        (K.state out.old) (K.state out.new) result }
    ensures sink { (K.state out.old).faults ≤ (K.state out.new).faults }
    ensures bus { (R.state regs.old).faults ≤ (R.state regs.new).faults }
{
    let OwnedHost {
        topo,
        image,
        windows,
    } = host;
    accepted_or_breach();
    match Session::open(alloc, topo, windows, image, regs, media) {
        Ok(mut session) => {
            let status = over_session(alloc, n, &mut session, out, regs, media);
            // a call lets go part by part, which is proved once for all that do
            drop(session);
            status
        }
        Err(fault) => finish(unopened(fault), out),
    }
}

/// Carries out the commands of the number over an open session, and writes what it comes to.
fn over_session<K: Sink, R: Regs, M: Roll>(
    alloc: Global,
    n: u32,
    session: &mut Session,
    out: &mut K,
    regs: &mut R,
    media: &mut M,
) -> Status
    requires few { n ≤ 32 }
    requires stands { Stands session.old (R.state regs.old) (M.state media.old) }
    ensures ends { ForEachMachine session.old (R.state regs.old) (M.state media.old) (λ m. (asked : List Asked) × (turns : List Turn)
        × HasGoneOn m asked turns session.new (R.state regs.old) (R.state regs.new) (M.state media.new)
        × EndsGen n (machine_after m turns) asked turns (K.state out.old) (K.state out.new) result) }
    ensures sink { (K.state out.old).faults ≤ (K.state out.new).faults }
    ensures bus { (R.state regs.old).faults ≤ (R.state regs.new).faults }
{
    match carried_out(alloc, n, session, regs, media) {
        Ok(outcome) => finish(Ok(outcome), out),
        Err(Memory) => Status::Memory,
    }
}

/// What the commands of the number come to over an open session.
fn carried_out<R: Regs, M: Roll>(
    alloc: Global,
    n: u32,
    session: &mut Session,
    regs: &mut R,
    media: &mut M,
) -> Result<Outcome, Memory>
    requires few { n ≤ 32 }
    requires stands { Stands session.old (R.state regs.old) (M.state media.old) }
    // All of them are carried out, and the last image is checked.
    ensures all { IfOk result (λ outcome. ForEachMachine session.old (R.state regs.old) (M.state media.old) (λ m. (turns : List Turn)
        × HasGoneOn m (made_asked n) turns session.new (R.state regs.old) (R.state regs.new) (M.state media.new)
        × (checked : ℕ) × HasChecked (present (machine_after m turns)) checked × (outcome ≡ gen_told n turns checked))) }
    // Or some, or there was no memory for the rest.
    ensures some { OnErr result (ForEachMachine session.old (R.state regs.old) (M.state media.old) (λ m. (count : ℕ) × (turns : List Turn)
        × HasGoneOn m (take count (made_asked n)) turns
        session.new (R.state regs.old) (R.state regs.new) (M.state media.new))) }
    ensures bus { (R.state regs.old).faults ≤ (R.state regs.new).faults }
{
    let counts = carry_out_made(alloc, n, session, regs, media)?;
    let checked = regions_found(alloc, session)?;
    told(alloc, n, counts, checked)
}

/// Carries out the commands of the number over an open session, and counts what they are answered.
fn carry_out_made<R: Regs, M: Roll>(
    alloc: Global,
    n: u32,
    session: &mut Session,
    regs: &mut R,
    media: &mut M,
) -> Result<Counts, Memory>
    requires few { n ≤ 32 }
    requires stands { Stands session.old (R.state regs.old) (M.state media.old) }
    ensures all { IfOk result (λ counts. ForEachMachine session.old (R.state regs.old) (M.state media.old) (λ m. (turns : List Turn)
        × HasGoneOn m (made_asked n) turns session.new (R.state regs.old) (R.state regs.new) (M.state media.new)
        × (counts ≡ counts_of (map (λ (turn : Turn). turn.reply) turns)))) }
    ensures some { OnErr result (ForEachMachine session.old (R.state regs.old) (M.state media.old) (λ m. (count : ℕ) × (turns : List Turn)
        × HasGoneOn m (take count (made_asked n)) turns
        session.new (R.state regs.old) (R.state regs.new) (M.state media.new))) }
    ensures bus { (R.state regs.old).faults ≤ (R.state regs.new).faults }
{
    let mut command = Command::Abort;
    let mut reply = Reply::NothingPending;
    carry_out_each(alloc, n, session, &mut command, &mut reply, regs, media)
}

/// Does so, each command made in one place when the one before it is done, and each reply in another.
fn carry_out_each<R: Regs, M: Roll>(
    alloc: Global,
    n: u32,
    session: &mut Session,
    command: &mut Command,
    reply: &mut Reply,
    regs: &mut R,
    media: &mut M,
) -> Result<Counts, Memory>
    requires few { n ≤ 32 }
    requires stands { Stands session.old (R.state regs.old) (M.state media.old) }
    ensures all { IfOk result (λ counts. ForEachMachine session.old (R.state regs.old) (M.state media.old) (λ m. (turns : List Turn)
        × HasGoneOn m (made_asked n) turns session.new (R.state regs.old) (R.state regs.new) (M.state media.new)
        × (counts ≡ counts_of (map (λ (turn : Turn). turn.reply) turns)))) }
    ensures some { OnErr result (ForEachMachine session.old (R.state regs.old) (M.state media.old) (λ m. (count : ℕ) × (turns : List Turn)
        × HasGoneOn m (take count (made_asked n)) turns
        session.new (R.state regs.old) (R.state regs.new) (M.state media.new))) }
    ensures bus { (R.state regs.old).faults ≤ (R.state regs.new).faults }
{
    made_systems_are_sound();
    let mut counts = Counts::none();
    for k in 0..command_count(n) {
        make_command(alloc, n, k, command)?;
        carry_out_counted(alloc, session, command, reply, &mut counts, regs, media)?;
    }
    Ok(counts)
}

/// How many regions a check finds in the session's image: none where it has a breach.
fn regions_found(alloc: Global, session: &Session) -> Result<usize, Memory>
    requires { AreMadeWith session.now.windows (bridge_uids session.now.topo.nodes) }
    ensures { IfOk result (HasChecked (image_in session.now)) }
{
    match check(alloc, session.image(), session.topo(), session.windows()) {
        Ok(regions) => Ok(regions.len()),
        Err(CheckFault::Breach(_)) => Ok(0),
        Err(CheckFault::Memory) => Err(Memory),
    }
}

/// The line of the number, of what is counted of the replies, and of how many regions are found.
fn told(alloc: Global, n: u32, counts: Counts, checked: usize) -> Result<Outcome, Memory>
    ensures { IfOk result (λ outcome. outcome ≡ one_piece Status.Done (gen_text n counts checked)) }
{
    let Counts {
        regions,
        stores,
        loads,
        unmapped,
        sum,
    } = counts;
    let text = format!(in alloc;
        "gen {n} regions {regions} stores {stores} loads {loads} unmapped {unmapped} sum {sum} checked {checked}\n"
    )?;
    Ok(Outcome::made(Status::Done, text.into_bytes()))
}
