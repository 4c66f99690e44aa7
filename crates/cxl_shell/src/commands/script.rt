//! The command `run`.

ghost use Rattle.std.specs.Prelude.{◌≡◌, ◌≢◌, ℕ, ◌≤◌, Ok, Err, List};
ghost use Rattle.cxl_check.specs.declared.fault.Breach.{Breach};
ghost use Rattle.cxl_machine.specs.Scripts.{Asked, Turn};
ghost use Rattle.cxl_model.specs.Accepted.{IsAccepted};
ghost use Rattle.cxl_model.specs.Listed.{AreRegionsByBase};
ghost use Rattle.cxl_model.specs.System.{IsSystem, system_of};
ghost use Rattle.cxl_session.specs.Standing.{Stands, ForEachMachine};
ghost use Rattle.cxl_turns.specs.Going.{HasGoneOn};
ghost use Rattle.cxl_shell.specs.Devices.{devices};
ghost use Rattle.cxl_shell.specs.Endings.{EndsScript};
ghost use Rattle.cxl_commands.specs.commands.RefusedStart.{too_many_regions};
ghost use Rattle.cxl_shell.specs.commands.Script.{bus_failed, script_stopped};
ghost use Rattle.cxl_shell.specs.inner.Scripts.{EndsOver, EndsFromImage};

use cxl_bus::Regs;
use cxl_commands::checked;
use cxl_inputs::{Outcome, OwnedHost, Status, Stop, finish};
use cxl_io::{Sink, Source};
use cxl_media::Roll;
use cxl_model::Found;
use cxl_session::{OpenFault, Session};
use cxl_turns::{Ending, carry_out_lines};
use std::alloc::Global;

/// Carries out the commands of a script over a host with an image, or tells its first breach. Opening a session
/// takes the topology, by which the breach is told.
pub(crate) fn script_from_image<S: Source, K: Sink, R: Regs, M: Roll>(
    alloc: Global,
    host: OwnedHost,
    source: &mut S,
    out: &mut K,
    regs: &mut R,
    media: &mut M,
) -> Status
    requires { IsSystem (system_of host.image host.topo host.windows.items) }
    ensures ends { EndsFromImage (system_of host.image host.topo host.windows.items) host.topo.frames
        (devices (S.state source.old) (R.state regs.old) (M.state media.old))
        (devices (S.state source.new) (R.state regs.new) (M.state media.new))
        (K.state out.old) (K.state out.new) result }
    ensures source { (S.state source.old).faults ≤ (S.state source.new).faults }
    ensures sink { (K.state out.old).faults ≤ (K.state out.new).faults }
    ensures bus { (R.state regs.old).faults ≤ (R.state regs.new).faults }
{
    match checked(alloc, &host) {
        Ok(regions) => script_over_regions(alloc, host, regions, source, out, regs, media),
        Err(stop) => finish(Err(stop), out),
    }
}

/// Carries out the commands of a script over a host whose image is accepted and has these regions, so that it is not judged
/// again.
pub(crate) fn script_over_regions<S: Source, K: Sink, R: Regs, M: Roll>(
    alloc: Global,
    host: OwnedHost,
    regions: Vec<Found>,
    source: &mut S,
    out: &mut K,
    regs: &mut R,
    media: &mut M,
) -> Status
    requires system { IsSystem (system_of host.image host.topo host.windows.items) }
    requires accepted { IsAccepted (system_of host.image host.topo host.windows.items) }
    requires listed { AreRegionsByBase (system_of host.image host.topo host.windows.items) regions.items }
    ensures ends { EndsOver (system_of host.image host.topo host.windows.items) host.topo.frames
        (devices (S.state source.old) (R.state regs.old) (M.state media.old))
        (devices (S.state source.new) (R.state regs.new) (M.state media.new))
        (K.state out.old) (K.state out.new) result }
    ensures source { (S.state source.old).faults ≤ (S.state source.new).faults }
    ensures sink { (K.state out.old).faults ≤ (K.state out.new).faults }
    ensures bus { (R.state regs.old).faults ≤ (R.state regs.new).faults }
{
    let OwnedHost {
        topo,
        image,
        windows,
    } = host;
    match Session::open_accepted(alloc, topo, windows, image, regions, regs, media) {
        Ok(mut session) => {
            let status = over_session(alloc, &mut session, source, out, regs, media);
            // a call lets go part by part, which is proved once for all that do
            drop(session);
            status
        }
        Err(fault) => finish(unopened(fault), out),
    }
}

/// Carries out the commands of a script over an open session, and tells where reading it stopped before its end. Registers and
/// media hold what the last call on this session left in them. (This project's rule.) Takes memory.
pub fn over_session<S: Source, K: Sink, R: Regs, M: Roll>(
    alloc: Global,
    session: &mut Session,
    source: &mut S,
    out: &mut K,
    regs: &mut R,
    media: &mut M,
) -> Status
    requires { Stands session.old (R.state regs.old) (M.state media.old) }
    ensures ends { ForEachMachine session.old (R.state regs.old) (M.state media.old) (λ m. (asked : List Asked) × (turns : List Turn)
        × HasGoneOn m asked turns session.new (R.state regs.old) (R.state regs.new) (M.state media.new)
        × EndsScript m.settled.nodes asked turns (S.state source.old) (S.state source.new)
        (K.state out.old) (K.state out.new) result) }
    ensures source { (S.state source.old).faults ≤ (S.state source.new).faults }
    ensures sink { (K.state out.old).faults ≤ (K.state out.new).faults }
    ensures bus { (R.state regs.old).faults ≤ (R.state regs.new).faults }
{
    match carry_out_lines(alloc, session, source, out, regs, media) {
        Ending::Done => Status::Done,
        Ending::ReadFault => finish(Ok(read_fault()), out),
        Ending::TooMuch => finish(Ok(too_much()), out),
        Ending::WriteFault => Status::WriteFault,
        Ending::Memory => Status::Memory,
    }
}

/// What it comes to that no session opens on an accepted image. (This project's rule.) Takes no memory, as the four below.
pub fn unopened(fault: OpenFault) -> Result<Outcome, Stop>
    requires { (b : Breach) → fault ≢ OpenFault.Breach b }
    ensures full { (n : ℕ) → fault ≡ OpenFault.Full n → result ≡ Ok too_many_regions }
    ensures bus { fault ≡ OpenFault.Bus → result ≡ Ok bus_failed }
    ensures memory { fault ≡ OpenFault.Memory → result ≡ Err Stop.Memory }
{
    match fault {
        OpenFault::Breach(_) => unreachable!(),
        OpenFault::Full(_) => Ok(too_many_regions()),
        OpenFault::Bus => Ok(bus_failed()),
        OpenFault::Memory => Err(Stop::Memory),
    }
}

/// More regions than may live.
fn too_many_regions() -> Outcome
    ensures { result ≡ too_many_regions }
{
    Outcome::fixed(Status::Refused, "regions full\n")
}

/// The bus failed before the first command.
fn bus_failed() -> Outcome
    ensures { result ≡ bus_failed }
{
    Outcome::fixed(Status::BusFault, "error: bus fault\n")
}

/// Reading the script failed.
fn read_fault() -> Outcome
    ensures { result ≡ script_stopped Ending.ReadFault }
{
    Outcome::fixed(Status::ReadFault, "error: script read failed\n")
}

/// The script has too many bytes.
fn too_much() -> Outcome
    ensures { result ≡ script_stopped Ending.TooMuch }
{
    Outcome::fixed(Status::TooMuch, "error: script too long\n")
}
